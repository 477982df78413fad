// What stands below a root. A reduced form has the rows of the leaves alone: below a root are the nodes of its fragment, and
// what is below its leaves.
#![tactic(auto)]

ghost use Rattle.std.specs.Prelude.{◌≡◌, true, ℕ, ◌≤◌, ◌<◌, length, get_or};
ghost use Rattle.base_nodeset.specs.Set.{mem};
ghost use Rattle.graph.specs.Graph.{Graph, root, own};
ghost use Rattle.theory_forest.specs.Shape.{Shaped};
ghost use Rattle.base_tables.specs.Trees.{Owners, Bounded, TreesOf};
ghost use Rattle.solve_below.specs.Below.{Under, Blank, Fragments, Gathered, BelowRoot, UnderRoot};

use base_nodeset::NodeSet;
use base_tables::trees::Trees;

// Nothing in the first n sets.
fn clear(sets: &mut [NodeSet], n: usize)
    requires { n ≤ length sets.old }
    ensures { Blank n sets.new }
{
    sets[..n].fill(NodeSet::empty());
}

// Of each root the nodes of its fragment.
pub fn fragments(trees: &Trees, sets: &mut [NodeSet])
    requires { Owners trees.now × (trees.now.n ≤ length sets.old) }
    ensures { Fragments trees.now.n (λ v. get_or trees.now.owner v 0) sets.new }
{
    let n = trees.n;
    clear(sets, n);
    for v in 0..n {
        let r = trees.owner[v] as usize;
        sets[r] = sets[r].with(v);
    }
}

// The set, and what is in the rows of the leaves.
fn gather(sets: &[NodeSet], set: NodeSet, leaves: NodeSet) -> NodeSet
    requires { (l : ℕ) → mem leaves l ≡ true → l < length sets.now }
    ensures { Gathered sets.now set leaves result }
{
    let mut all = set;
    let mut left = leaves;
    while let Some(l) = left.pop_first() {
        all = all.union(sets[l]);
    }
    all
}

// The root r and the nodes under it.
pub fn below(sets: &[NodeSet], fragments: &[NodeSet], trees: &Trees, r: usize) -> NodeSet
    requires { (trees.now.n ≤ length sets.now) × (trees.now.n ≤ length fragments.now) × Bounded trees.now × (r < trees.now.n) }
    ensures { (g : Graph) → Shaped g → TreesOf g trees.now → Fragments trees.now.n (own g) fragments.now → Under g sets.now →
        root g r ≡ true → BelowRoot g r result }
{
    let nodes = fragments[r];
    gather(sets, nodes, nodes.intersection(trees.leaves))
}

// The nodes under the root r.
pub fn under(sets: &[NodeSet], fragments: &[NodeSet], trees: &Trees, r: usize) -> NodeSet
    requires { (trees.now.n ≤ length sets.now) × (trees.now.n ≤ length fragments.now) × Bounded trees.now × (r < trees.now.n) }
    ensures { (g : Graph) → Shaped g → TreesOf g trees.now → Fragments trees.now.n (own g) fragments.now → Under g sets.now →
        root g r ≡ true → UnderRoot g r result }
{
    let nodes = fragments[r];
    gather(sets, nodes.without(r), nodes.intersection(trees.leaves))
}
