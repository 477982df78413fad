// Rule 1: from a solved form to a configuration.
#![tactic(auto)]

ghost use Rattle.std.specs.Prelude.{◌≡◌, true, ◌<◌, length, take};
ghost use Rattle.base_finite.specs.Below.{any};
ghost use Rattle.base_nodeset.specs.Set.{mem};
ghost use Rattle.graph.specs.Graph.{leaf_of};
ghost use Rattle.graph.specs.Rule1.{up, depth, Rule1};
ghost use Rattle.base_tables.specs.Trees.{InnerSet};
ghost use Rattle.solve_rule1.specs.Solved.{GraphOf, Solved};
ghost use Rattle.base_finite.specs.Stores.{entry_is};
ghost use Rattle.solve_rule1.specs.Carried.{Carrying, better, Best, First, Moved};
ghost use Rattle.solve_rule1.specs.Step.{Stepped, Configured};

use base_nodeset::NodeSet;
use base_tables::Graph;
use base_tables::trees::{inner_nodes, own};
use graph::NONE;

// The leaves that carry several roots.
fn several(p: &[u8]) -> NodeSet
    ensures { Carrying 2 (length p.now) p.now result }
{
    let mut once = NodeSet::empty();
    let mut twice = NodeSet::empty();
    for &byte in p {
        let leaf = NodeSet::of_byte(byte);
        twice = once.intersection(leaf).union(twice);
        once = leaf.union(once);
    }
    twice
}

// The node above v, over a tree edge or a hanging.
fn above(graph: &Graph, p: &[u8], v: usize) -> u8
    requires { Solved graph.now.n graph.now.parent p.now × (v < graph.now.n) }
    ensures { (s : Solved graph.now.n graph.now.parent p.now) → result ≡ up s.sheet.graph p.now v }
{
    let over = graph.parent[v];
    if over == NONE { p[v] } else { over }
}

// The edges from the top root down to v.
fn edges_above(graph: &Graph, p: &[u8], v: usize) -> usize
    requires { Solved graph.now.n graph.now.parent p.now × (v < graph.now.n) }
    ensures { (s : Solved graph.now.n graph.now.parent p.now) → result ≡ depth s.sheet.graph p.now v }
{
    let mut at = v;
    for edges in 0..graph.n {
        let over = above(graph, p, at);
        if over == NONE {
            return edges;
        }
        at = over as usize;
    }
    graph.n
}

// The leaf l, if it is less deep than the best before it.
#[tactic(auto, unfolding(crate::specs::Carried::better))]
fn better_leaf(graph: &Graph, p: &[u8], leaves: NodeSet, best: usize, l: usize) -> usize
    requires { Solved graph.now.n graph.now.parent p.now × (best < graph.now.n) × (l < graph.now.n) }
    ensures { (s : Solved graph.now.n graph.now.parent p.now) →
        result ≡ better leaves (depth s.sheet.graph p.now) best l }
{
    if leaves.has(l) && edges_above(graph, p, l) < edges_above(graph, p, best) {
        l
    } else {
        best
    }
}

// Of the leaves the least deep, and of these the lowest.
fn best_leaf(graph: &Graph, p: &[u8], leaves: NodeSet) -> usize
    requires { Solved graph.now.n graph.now.parent p.now × (any graph.now.n (mem leaves) ≡ true) }
    ensures { (result < graph.now.n) ×
        ((s : Solved graph.now.n graph.now.parent p.now) → Best leaves (depth s.sheet.graph p.now) graph.now.n result) }
{
    let mut best = leaves.lowest();
    for l in 0..graph.n {
        best = better_leaf(graph, p, leaves, best, l);
    }
    best
}

// The lowest root that the leaf carries.
fn lowest_root(p: &[u8], leaf: u8) -> Option<usize>
    ensures { First (length p.now) (entry_is p.now leaf) result }
{
    p.iter().position(|over| *over == leaf)
}

fn is_leaf_of(graph: &Graph, inner: NodeSet, root: usize, v: usize) -> bool
    requires { GraphOf graph.now.n graph.now.parent × InnerSet graph.now.n graph.now.parent inner × (v < graph.now.n) }
    ensures { (s : GraphOf graph.now.n graph.now.parent) → result ≡ leaf_of s.graph root v }
{
    !inner.has(v) && own(&graph.parent, graph.n, v) == root
}

fn lowest_leaf(graph: &Graph, inner: NodeSet, root: usize) -> Option<usize>
    requires { GraphOf graph.now.n graph.now.parent × InnerSet graph.now.n graph.now.parent inner }
    ensures { (s : GraphOf graph.now.n graph.now.parent) → First graph.now.n (leaf_of s.graph root) result }
{
    for v in 0..graph.n {
        if is_leaf_of(graph, inner, root, v) {
            return Some(v);
        }
    }
    None
}

// The root that stays is the first under its leaf: the others come after it.
fn move_others(p: &mut [u8], from: u8, stays: usize, to: u8)
    requires { stays < length p.old }
    ensures { Moved (length p.old) from stays to p.old p.new }
{
    for leaf in &mut p[stays + 1..] {
        if *leaf == from {
            *leaf = to;
        }
    }
}

// One step, if a leaf carries several roots.
fn step(graph: &Graph, inner: NodeSet, p: &mut [u8]) -> bool
    requires { Solved graph.now.n graph.now.parent p.old × InnerSet graph.now.n graph.now.parent inner }
    ensures { (s : Solved graph.now.n graph.now.parent p.old) →
        Stepped s.sheet.graph p.old result p.new }
{
    let leaves = several(p);
    if leaves.is_empty() {
        return false;
    }
    let from = best_leaf(graph, p, leaves) as u8;
    let stays = lowest_root(p, from).unwrap();
    let to = lowest_leaf(graph, inner, stays).unwrap() as u8;
    move_others(p, from, stays, to);
    true
}

// Each step puts a node below another that it was not below, so that n * n of them are enough.
fn steps(graph: &Graph, inner: NodeSet, p: &mut [u8])
    requires { Solved graph.now.n graph.now.parent p.old × InnerSet graph.now.n graph.now.parent inner }
    ensures { (s : Solved graph.now.n graph.now.parent p.old) → Rule1 s.sheet.graph p.old p.new }
{
    for _done in 0..graph.n * graph.n {
        if !step(graph, inner, p) {
            return;
        }
    }
}

// Rule 1 on the first n bytes, until no leaf carries two roots.
pub fn configure(graph: &Graph, placing: &mut [u8])
    requires { Solved graph.now.n graph.now.parent (take graph.now.n placing.old) }
    ensures { Configured graph.now.n graph.now.parent placing.old placing.new }
{
    let inner = inner_nodes(&graph.parent, graph.n);
    steps(graph, inner, &mut placing[..graph.n]);
}
