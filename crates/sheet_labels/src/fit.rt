// Labels that don't fit: 14, 15, 16.
ghost use Rattle.std.specs.Prelude.{◌≡◌, List, ℕ, ◌≤◌, ◌<◌, length};
ghost use Rattle.base_finite.specs.Below.{any, count};
ghost use Rattle.base_nodeset.specs.Set.{mem};
ghost use Rattle.base_nodeset.specs.declared.NodeSet.{NodeSet};
ghost use Rattle.graph.specs.Graph.{Edge};
ghost use Rattle.graph.specs.Constraint.{arity};
ghost use Rattle.theory_edges.specs.Edges.{graph_with};
ghost use Rattle.base_tables.specs.Tables.{Holds};
ghost use Rattle.base_tables.specs.Trees.{Parents};
ghost use Rattle.format.specs.Sheet as spec;
ghost use Rattle.sheet_labels.specs.Keep.{Keeps};
ghost use Rattle.base_tables.specs.Rows.{Long};
ghost use Rattle.sheet_labels.specs.Fit.{children_in, taken_in, unfit_in, hole_in};

use crate::table::Labels;
use base_nodeset::NodeSet;
use base_tables::Graph;
use sheet_grow::bare_nodes;

// How many children a symbol takes.
#[tactic(auto, unfolding(graph::specs::Constraint::arity))]
fn arity(symbol: u8) -> usize
    ensures { result ≡ arity symbol }
{
    match symbol {
        0..=63 => 0,
        64..=127 => 1,
        128..=191 => 2,
        192..=255 => 3,
    }
}

// A loop: `filter` and `count` took labelled sheets a third longer, since this is gone through for each node.
fn children(parent: &[u8], n: usize, v: usize) -> usize
    requires { (n ≤ 128) × (length parent.now ≡ 128) }
    ensures { result ≡ children_in n parent.now v }
{
    let mut found = 0;
    for &above in &parent[..n] {
        if above as usize == v {
            found += 1;
        }
    }
    found
}

// How many children v is to have: an unlabelled node none.
fn taken(labels: &Labels, v: usize) -> usize
    requires { v < 128 }
    ensures { result ≡ taken_in labels.now v }
{
    if labels.labelled.has(v) {
        arity(labels.symbols[v])
    } else {
        0
    }
}

fn unfit(labels: &Labels, parent: &[u8], n: usize) -> bool
    requires { (n ≤ 128) × (length parent.now ≡ 128) }
    ensures { result ≡ any n (unfit_in labels.now n parent.now) }
{
    (0..n).any(|v| children(parent, n, v) != taken(labels, v))
}

// 14: a node labelled twice, or whose children don't fit its symbol.
pub fn mislabelled(labels: &Labels, parent: &[u8], n: usize) -> bool
    requires { Parents n parent.now }
    ensures { (m : spec.Labels) (t d : List Edge) (heads : List NodeSet) (edges : ℕ) → Keeps m labels.now → Holds n t d parent.now heads edges
        → result ≡ spec.mislabelled (graph_with n t d) m.symbols }
{
    labels.twice || unfit(labels, parent, n)
}

fn labelled_nodes(labelled: NodeSet, n: usize) -> usize
    requires { n ≤ 128 }
    ensures { result ≡ count n (mem labelled) }
{
    let mut nodes = 0;
    for v in 0..n {
        if labelled.has(v) {
            nodes += 1;
        }
    }
    nodes
}

// 15: two labelled nodes without 0x06.
pub fn overlapping(labels: &Labels, n: usize) -> bool
    requires { n ≤ 128 }
    ensures { (m : spec.Labels) (t d : List Edge) → Keeps m labels.now → result ≡ spec.overlapping (graph_with n t d) m }
{
    !labels.differ && 1 < labelled_nodes(labels.labelled, n)
}

// A dominance edge from v, which is labelled; or v, which is not, is bare.
fn hole(labelled: NodeSet, bare: NodeSet, heads: &[NodeSet], v: usize) -> bool
    requires { (v < 128) × Long heads.now }
    ensures { result ≡ hole_in labelled bare heads.now v }
{
    if labelled.has(v) {
        !heads[v].is_empty()
    } else {
        bare.has(v)
    }
}

// 16: a dominance edge from a labelled leaf, or an unlabelled node without tree edges.
pub fn holed(labels: &Labels, graph: &Graph) -> bool
    requires { Parents graph.now.n graph.now.parent }
    ensures { (m : spec.Labels) (t d : List Edge) (edges : ℕ) → Keeps m labels.now
        → Holds graph.now.n t d graph.now.parent graph.now.heads edges
        → result ≡ spec.holed (graph_with graph.now.n t d) m.symbols }
{
    let bare = bare_nodes(&graph.parent, graph.n);
    for v in 0..graph.n {
        if hole(labels.labelled, bare, &graph.heads, v) {
            return true;
        }
    }
    false
}
