// A graph's reduced form, kept in a table: Rule 2, the choice of Rule 3, and the placing where no choice is left.
#![tactic(auto)]

pub mod choose;
mod forks;
mod heads;
mod over;
pub mod reduced;
pub mod settle;
