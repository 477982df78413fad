// The theorems on the walk through the readings; no code.
#![tactic(auto)]
