// The check of a cycle: do the bytes spell a simple hypernormal cycle of the sheet?
#![tactic(auto)]

mod edge;
mod place;

ghost use Rattle.std.specs.Prelude.{◌≡◌, ℕ, not, ◌&&◌, ◌≤◌, ltb};
ghost use Rattle.base_nodeset.specs.Set.{mem};
ghost use Rattle.graph.specs.Graph as spec;
ghost use Rattle.graph.specs.Cycle.{pairs, hypernormal_cycle};
ghost use Rattle.base_tables.specs.Tables.{Tables};
ghost use Rattle.check_cycle.specs.Check.{NodesBelow, sized, nodes_differ, all_joined, two_kinds, leaves_differ};

use crate::edge::{joined, leaf};
use crate::place::{edge_at, kind_at, node_at};
use base_nodeset::NodeSet;
use base_tables::Graph;

// An even number of bytes, two pairs or more, and no more pairs than nodes: a longer cycle would repeat a node.
#[tactic(auto, unfolding(crate::specs::Check::sized, graph::specs::Cycle::pairs))]
fn well_sized(cycle: &[u8], n: usize) -> bool
    ensures { result ≡ sized n cycle.now }
{
    let pairs = cycle.len() / 2;
    cycle.len() % 2 == 0 && 2 <= pairs && pairs <= n
}

// The number is a node's, and none of those seen.
fn is_new(node: usize, n: usize, seen: NodeSet) -> bool
    requires { n ≤ 128 }
    ensures { result ≡ (ltb node n && not (mem seen node)) }
{
    node < n && !seen.has(node)
}

// The nodes are below n, and none stands at two places.
#[tactic(auto, unfolding(graph::specs::Cycle::pairs))]
fn nodes_differ(cycle: &[u8], n: usize) -> bool
    requires { n ≤ 128 }
    ensures { result ≡ nodes_differ n cycle.now }
{
    let mut seen = NodeSet::empty();
    for i in 0..cycle.len() / 2 {
        let node = node_at(cycle, i);
        if !is_new(node, n, seen) {
            return false;
        }
        seen = seen.with(node);
    }
    true
}

// Each node is joined to the next by an edge of the kind that stands between them.
#[tactic(auto, unfolding(graph::specs::Cycle::pairs))]
fn all_joined(graph: &Graph, cycle: &[u8]) -> bool
    requires { NodesBelow 128 cycle.now }
    ensures { result ≡ all_joined graph.now.parent graph.now.heads cycle.now }
{
    for i in 0..cycle.len() / 2 {
        if !joined(graph, edge_at(cycle, i)) {
            return false;
        }
    }
    true
}

// Two edges between the same two nodes are of different kinds; only a cycle of two nodes has such.
#[tactic(auto, unfolding(crate::specs::Check::two_kinds, graph::specs::Cycle::pairs))]
fn edges_differ(cycle: &[u8]) -> bool
    requires { 2 ≤ pairs cycle.now }
    ensures { result ≡ two_kinds cycle.now }
{
    cycle.len() / 2 != 2 || kind_at(cycle, 0) != kind_at(cycle, 1)
}

// No leaf has two dominance edges of the cycle.
#[tactic(auto, unfolding(graph::specs::Cycle::pairs))]
fn leaves_differ(graph: &Graph, cycle: &[u8]) -> bool
    requires { NodesBelow 128 cycle.now }
    ensures { result ≡ leaves_differ graph.now.heads cycle.now }
{
    let mut used = NodeSet::empty();
    for i in 0..cycle.len() / 2 {
        let leaf = leaf(graph, edge_at(cycle, i));
        if !used.intersection(leaf).is_empty() {
            return false;
        }
        used = used.union(leaf);
    }
    true
}

// "It accepts cycles from anybody": nothing is asked of the bytes.
pub fn check(graph: &Graph, cycle: &[u8]) -> bool
    requires { graph.now.n ≤ 128 }
    ensures { (g : spec.Graph) (edges : ℕ)
        → Tables g graph.now.n graph.now.parent graph.now.heads edges
        → result ≡ hypernormal_cycle g cycle.now }
{
    well_sized(cycle, graph.n)
        && nodes_differ(cycle, graph.n)
        && all_joined(graph, cycle)
        && edges_differ(cycle)
        && leaves_differ(graph, cycle)
}
