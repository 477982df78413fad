// The theorems on rings of coloured hops; no code.
#![tactic(auto)]
