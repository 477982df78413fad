// Bytes to a graph: decoding, refusals 1 to 4, 6, 8 and 12 to 16.
#![tactic(auto)]

pub mod judge;
pub mod read;
