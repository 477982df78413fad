// The theorems on the layout of sheets; no code.
#![tactic(auto)]
