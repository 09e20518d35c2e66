// For every public function of every library: that its contract admits one answer, one next state and one last value of each buffer.
// There is no code here; each theorem is of the contract itself, as the checker reads it from the source.
#![tactic(auto)]
