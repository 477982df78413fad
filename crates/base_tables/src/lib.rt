// The tables that all code works on: a sheet's graph, sets of nodes, a table of parents.
#![tactic(auto)]

use base_nodeset::NodeSet;

pub mod sets;
pub mod trees;

// A graph: of each node its parent (NONE: a root), of each leaf the set of roots that its dominance edges go to, and how
// many dominance edges there are: the number stays as it was where edges are taken out (`solve_cycle`).
#[derive(Drop)]
pub struct Graph {
    pub n: usize,
    pub parent: [u8; 128],
    pub heads: [NodeSet; 128],
    pub edges: usize,
}
