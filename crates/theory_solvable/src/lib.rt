// The theorems on free fragments; no code.
#![tactic(auto)]
