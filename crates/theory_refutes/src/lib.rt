// Theorem 6.2, from cycle to refusal; no code.
#![tactic(auto)]
