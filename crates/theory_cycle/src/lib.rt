// Theorem 6.2 and minimal sets of edges; no code.
#![tactic(auto)]
