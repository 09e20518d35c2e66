// The line of a condition in a listing. There is no code here: specs/ defines, and `listing_tables` puts it.
#![tactic(auto)]
