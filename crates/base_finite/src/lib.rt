// Definitions and laws on the numbers below a bound, and on stores; no code.
#![tactic(auto)]
