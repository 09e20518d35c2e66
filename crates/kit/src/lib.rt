// Definitions and laws that know nothing of trains. No code: specs/ defines, proofs/ proves.

#![tactic(auto)]
