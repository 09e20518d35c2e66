// "Reckoned by hand" of document 01, cases of the requests of document 02, and runs of both ends: no code, but cases that the checker computes from the definitions.
// specs/ has each case beside what the paper says, proofs/ that they agree.
#![tactic(auto)]
