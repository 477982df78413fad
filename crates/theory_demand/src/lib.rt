// The third demand as one theorem over the promises; no code.
#![tactic(auto)]
