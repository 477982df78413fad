// The commands of a sheet, one after the other, into a graph: refusals 1 to 4 and 8.
#![tactic(auto)]

pub mod command;
pub mod reader;
pub mod run;
pub mod turn;
