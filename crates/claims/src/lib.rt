// What is claimed of the whole box, in theorems. There is no code here: specs/ has what the claims speak of, proofs/ the claims.
#![tactic(auto)]
