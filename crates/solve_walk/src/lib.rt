// The walk through a solvable graph's readings, in order.
#![tactic(auto)]

pub mod steps;
