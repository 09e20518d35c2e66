// How many bytes the lines of a listing have at most, and that they have room in the buffers of the program list_conditions. There is no code
// here: proofs/ has the theorems.
#![tactic(auto)]
