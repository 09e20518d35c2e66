// What the second word of a condition says in a listing: the exit, the traction system, or the limit. There is no code here: specs/ defines,
// and `listing_tables` puts it.
#![tactic(auto)]
