// Into a half of a choice, and back to the other. The decisions are kept in a table, the reduced forms that they led to in a stack of
// states. Halves are entered untested; where that leads to no reading, `solve_descend` tests them on the way back.
#![tactic(auto)]

pub mod dive;
