// The words for the states of signals, each with a blank before it. There is no code here: specs/ defines, and `signals_output` puts them.
#![tactic(auto)]
