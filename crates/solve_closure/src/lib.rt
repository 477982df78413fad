// The closure of a graph's or a placing's edges as rows: of each node the set of nodes under it, in a lent table of 128 sets.
// The rows get the edges first, and are then filled by the descent walk. What an edge adds to closed rows is found in one pass over
// one column of them (`rising`) and one over the rows that it extends (`join`).
#![tactic(auto)]

ghost use Rattle.std.specs.Prelude.{◌≡◌, true, false, ◌&&◌, List, ℕ, ◌+◌, ◌≤◌, ◌<◌, ltb, length, get_or, take};
ghost use Rattle.base_finite.specs.Below.{any};
ghost use Rattle.base_nodeset.specs.Set.{bit, mem};
ghost use Rattle.graph.specs.Graph as spec;
ghost use Rattle.graph.specs.Graph.{Descent, none};
ghost use Rattle.graph.specs.Placing.{placing as placing_of, Below};
ghost use Rattle.base_tables.specs.Trees.{Parents};
ghost use Rattle.base_tables.specs.Rows.{nothing, Long, in_row, Rows};
ghost use Rattle.base_tables.specs.Tables.{Tables};
ghost use Rattle.solve_closure.specs.Closing.{word_of, Rising, Joined, Links, link_to, link_in, head_in, Adds};

use base_nodeset::NodeSet;
use base_tables::Graph;
use graph::NONE;
use solve_descent::fill;

// Some node below n lies under itself.
pub fn cyclic(rows: &[NodeSet], n: usize) -> bool
    requires { Long rows.now × (n ≤ 128) }
    ensures { result ≡ any n (λ u. in_row rows.now u u) }
{
    for u in 0..n {
        if rows[u].has(u) {
            return true;
        }
    }
    false
}

// One of the two words of a set.
fn word(set: NodeSet, high: bool) -> u64
    ensures { result ≡ word_of high set }
{
    if high { set.high } else { set.low }
}

// Which of `count` rows, from the row `first` on, have bit k of that word. No branch depends on a bit, since most of adding an edge
// is this loop.
fn column(rows: &[NodeSet], first: usize, count: usize, high: bool, k: usize) -> u64
    requires { (first + count ≤ length rows.now) × (first + count ≤ 128) × (count ≤ 64) × (k < 64) }
    ensures { (i : ℕ) → bit result i ≡ (ltb i count && bit (word_of high (get_or rows.now (first + i) nothing)) k) }
{
    let mut bits = 0u64;
    for i in 0..count {
        bits |= ((word(rows[first + i], high) >> k) % 2) << i;
    }
    bits
}

// The set of the first n rows that have that bit.
fn columns(rows: &[NodeSet], n: usize, high: bool, k: usize) -> NodeSet
    requires { (n ≤ length rows.now) × (n ≤ 128) × (k < 64) }
    ensures { (x : ℕ) → mem result x ≡ (ltb x n && bit (word_of high (get_or rows.now x nothing)) k) }
{
    if n <= 64 {
        NodeSet {
            low: column(rows, 0, n, high, k),
            high: 0,
        }
    } else {
        NodeSet {
            low: column(rows, 0, 64, high, k),
            high: column(rows, 64, n - 64, high, k),
        }
    }
}

// a, and the nodes whose rows have a.
pub fn rising(rows: &[NodeSet], n: usize, a: usize) -> NodeSet
    requires { (n ≤ length rows.now) × (n ≤ 128) × (a < n) }
    ensures { Rising n a rows.now result }
{
    if a < 64 {
        columns(rows, n, false, a).with(a)
    } else {
        columns(rows, n, true, a - 64).with(a)
    }
}

// `more`, joined into the row of each member of the set.
pub fn join(rows: &mut [NodeSet], set: NodeSet, more: NodeSet)
    requires { (x : ℕ) → mem set x ≡ true → x < length rows.old }
    ensures { Joined (mem set) (mem more) rows.old rows.new }
{
    let mut left = set;
    while let Some(x) = left.pop_first() {
        rows[x] = rows[x].union(more);
    }
}

fn clear(rows: &mut [NodeSet])
    requires { Long rows.old }
    ensures { (u v : ℕ) → in_row rows.new u v ≡ false }
{
    rows.fill(NodeSet::empty());
}

// The edge to v from the node above it, where there is one.
fn add_link(rows: &mut [NodeSet], above: u8, v: usize)
    requires { Long rows.old × (v < 128) × ((above ≡ none → ⊥) → above < 128) }
    ensures { Adds (link_to above v) rows.old rows.new }
{
    if above != NONE {
        let above = above as usize;
        rows[above] = rows[above].with(v);
    }
}

fn add_links(links: &[u8], n: usize, rows: &mut [NodeSet])
    requires { Links n links.now × Long rows.old × (n ≤ 128) }
    ensures { Adds (link_in n links.now) rows.old rows.new }
{
    for v in 0..n {
        add_link(rows, links[v], v);
    }
}

fn add_heads(heads: &[NodeSet], n: usize, rows: &mut [NodeSet])
    requires { Long heads.now × Long rows.old × (n ≤ 128) }
    ensures { Adds (head_in n heads.now) rows.old rows.new }
{
    for l in 0..n {
        rows[l] = rows[l].union(heads[l]);
    }
}

// The descent relation of the graph.
pub fn graph_rows(graph: &Graph, rows: &mut [NodeSet])
    requires { Parents graph.now.n graph.now.parent × Long rows.old }
    ensures { (g : spec.Graph) (edges : ℕ) → Tables g graph.now.n graph.now.parent graph.now.heads edges →
        Rows (Descent g) rows.new }
{
    clear(rows);
    add_links(&graph.parent, graph.n, rows);
    add_heads(&graph.heads, graph.n, rows);
    fill(rows, graph.n);
}

// The descent relation of a placing, the first n bytes, of a graph with these parents.
pub fn placing_rows(parent: &[u8], placing: &[u8], n: usize, rows: &mut [NodeSet])
    requires { Parents n parent.now × Links n placing.now × Long rows.old }
    ensures { (g : spec.Graph) (heads : List NodeSet) (edges : ℕ) → Tables g n parent.now heads edges →
        placing_of g (take n placing.now) ≡ true → Rows (Below g (take n placing.now)) rows.new }
{
    clear(rows);
    add_links(parent, n, rows);
    add_links(placing, n, rows);
    fill(rows, n);
}
