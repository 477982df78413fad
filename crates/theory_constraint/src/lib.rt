// Theorems only.
#![tactic(auto)]
