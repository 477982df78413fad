// Edges between two nodes of a graph.
ghost use Rattle.std.specs.Prelude.{◌≡◌, ◌<◌};
ghost use Rattle.base_tables.specs.Rows.{Long};
ghost use Rattle.check_cycle.specs.Check.{dominance_joins, joined_in, LeafSet};

use crate::place::Edge;
use base_nodeset::NodeSet;
use base_tables::Graph;
use base_tables::trees::tied;
use graph::{DOMINANCE, TREE};

// A dominance edge, taken either way.
#[tactic(auto, unfolding(crate::specs::Check::dominance_joins))]
fn dominance_joins(heads: &[NodeSet], u: usize, v: usize) -> bool
    requires { Long heads.now × (u < 128) × (v < 128) }
    ensures { result ≡ dominance_joins heads.now u v }
{
    heads[u].has(v) || heads[v].has(u)
}

// An edge of this kind, taken either way.
#[tactic(auto, unfolding(crate::specs::Check::joined_in))]
pub fn joined(graph: &Graph, edge: Edge) -> bool
    ensures { result ≡ joined_in graph.now.parent graph.now.heads edge.kind edge.node edge.next }
{
    match edge.kind {
        TREE => tied(&graph.parent, edge.node, edge.next),
        DOMINANCE => dominance_joins(&graph.heads, edge.node, edge.next),
        _ => false,
    }
}

// The leaf that the edge starts from, if it is a dominance edge.
#[tactic(auto, unfolding(crate::specs::Check::starts_from))]
pub fn leaf(graph: &Graph, edge: Edge) -> NodeSet
    ensures { LeafSet graph.now.heads edge.kind edge.node edge.next result }
{
    if edge.kind != DOMINANCE {
        NodeSet::empty()
    } else if graph.heads[edge.node].has(edge.next) {
        NodeSet::only(edge.node)
    } else {
        NodeSet::only(edge.next)
    }
}
