// The theorems on Rule 1; no code.
#![tactic(auto)]
