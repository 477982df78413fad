// The theorems on the list of readings; no code.
#![tactic(auto)]
