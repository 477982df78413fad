// The labels of a sheet: kept in a table, and held against its trees and dominance edges.
#![tactic(auto)]

pub mod fit;
pub mod gather;
pub mod table;
