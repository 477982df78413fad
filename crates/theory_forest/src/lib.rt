// The theorems on descent, forests and fragments; no code.
#![tactic(auto)]
