// The reduced form of a graph with n nodes: n + 1 sets, of each leaf the nodes under it, of each root the leaves whose edges to it
// stay, and last the forks, which have several. Inner nodes have none. An edge more changes few of them.
ghost use Rattle.std.specs.Prelude.{◌≡◌, true, ◌&&◌, ℕ, ◌≤◌, ◌<◌, length};
ghost use Rattle.base_nodeset.specs.Set.{mem};
ghost use Rattle.graph.specs.Graph.{Graph, Descent};
ghost use Rattle.graph.specs.Order.{adding};
ghost use Rattle.theory_forest.specs.Shape.{Shaped};
ghost use Rattle.theory_list.specs.Keeping.{Fresh};
ghost use Rattle.theory_list.specs.Redundancy.{Loopless};
ghost use Rattle.base_tables.specs.Rows.{Long, in_row, Rows};
ghost use Rattle.base_tables.specs.Trees.{Bounded, TreesOf, Owners, Fits};
ghost use Rattle.solve_below.specs.Below.{BelowRoot};
ghost use Rattle.solve_reduce.specs.Reduced.{wide, Wide, Forks, Reduced, Laid, Revised, RevisedAt};

use crate::forks::noted;
use crate::heads::heads;
use crate::over::over;
use base_nodeset::NodeSet;
use base_tables::trees::Trees;
use solve_closure::join;

// The sets for 128 nodes.
pub const WIDE: usize = 129;

// The sets for n nodes.
pub fn width(n: usize) -> usize
    requires { n ≤ 128 }
    ensures { result ≡ wide n }
{
    n + 1
}

// The row of a leaf, and nothing of another node.
fn leaf_row(rows: &[NodeSet], leaves: NodeSet, u: usize) -> NodeSet
    requires { Long rows.now × (u < 128) }
    ensures { (v : ℕ) → mem result v ≡ (mem leaves u && in_row rows.now u v) }
{
    if leaves.has(u) {
        rows[u]
    } else {
        NodeSet::empty()
    }
}

// The rows of the leaves, and no edges.
fn lay(rows: &[NodeSet], leaves: NodeSet, n: usize, sets: &mut [NodeSet])
    requires { Long rows.now × (n ≤ 128) × Wide n sets.old }
    ensures { Laid n leaves rows.now sets.new }
{
    for u in 0..n {
        sets[u] = leaf_row(rows, leaves, u);
    }
}

// Of v the leaves `less` go and the leaves `more` come; the forks then. Most sets stay as they are.
fn revise_one(
    sets: &mut [NodeSet],
    v: usize,
    less: NodeSet,
    more: NodeSet,
    forks: NodeSet,
) -> NodeSet
    requires { (v < length sets.old) × (v < 128) }
    ensures revised_at { RevisedAt v less more sets.old sets.new }
    ensures forks { (roots : NodeSet) → mem roots v ≡ true → Forks roots sets.old forks → Forks roots sets.new result }
{
    let old = sets[v];
    let from = old.difference(less).union(more);
    if old == from {
        return forks;
    }
    sets[v] = from;
    noted(forks, v, from)
}

// The same of each member of the set.
fn revise(
    sets: &mut [NodeSet],
    set: NodeSet,
    less: NodeSet,
    more: NodeSet,
    forks: NodeSet,
) -> NodeSet
    requires { (v : ℕ) → mem set v ≡ true → v < length sets.old }
    ensures revised { Revised set less more sets.old sets.new }
    ensures by_index { (roots : NodeSet) → ((v : ℕ) → mem set v ≡ true → mem roots v ≡ true) → Forks roots sets.old forks → Forks roots sets.new result }
{
    let mut forked = forks;
    let mut left = set;
    while let Some(v) = left.pop_first() {
        forked = revise_one(sets, v, less, more, forked);
    }
    forked
}

// The reduced form of the graph with these rows.
pub fn reduce(rows: &[NodeSet], trees: &Trees, sets: &mut [NodeSet])
    requires { Long rows.now × Bounded trees.now × Wide trees.now.n sets.old }
    ensures { (g : Graph) → Shaped g → TreesOf g trees.now → Rows (Descent g) rows.now → Reduced g trees.now.n sets.new }
{
    lay(rows, trees.leaves, trees.n, sets);
    let mut forks = NodeSet::empty();
    let mut left = trees.leaves;
    while let Some(l) = left.pop_first() {
        let to = heads(rows, trees.roots, l);
        forks = revise(sets, to, NodeSet::empty(), NodeSet::only(l), forks);
    }
    sets[trees.n] = forks;
}

// An edge more, from the leaf a to the root r, and what is below r. Edges from a or above it to r or below it have become redundant.
pub fn add(sets: &mut [NodeSet], trees: &Trees, a: usize, r: usize, below: NodeSet)
    requires { Wide trees.now.n sets.old × Owners trees.now × (a < trees.now.n) × (r < trees.now.n) }
    ensures { (g : Graph) → Fits g trees.now → Loopless g → Fresh g a r → BelowRoot g r below → Reduced g trees.now.n sets.old →
        Reduced (adding g a r) trees.now.n sets.new }
{
    let n = trees.n;
    let forks = sets[n];
    let rising = over(sets, trees, a);
    join(sets, rising, below);
    let lower = below.intersection(trees.roots);
    let fewer = revise(sets, lower, rising, NodeSet::empty(), forks);
    let from = sets[r].with(a);
    sets[r] = from;
    sets[n] = noted(fewer, r, from);
}
