// The leaves above a leaf. Edges that stay lead up to them, from fragment to fragment; where that would take long the rows are
// looked through instead.
ghost use Rattle.std.specs.Prelude.{◌≡◌, true, ℕ, ◌≤◌, ◌<◌, length};
ghost use Rattle.base_nodeset.specs.Set.{mem};
ghost use Rattle.graph.specs.Graph.{Graph, leaf};
ghost use Rattle.theory_list.specs.Redundancy.{Loopless};
ghost use Rattle.base_tables.specs.Trees.{Owners, Fits};
ghost use Rattle.solve_reduce.specs.Reduced.{OverLeaf, Reduced};

use base_nodeset::NodeSet;
use base_tables::trees::Trees;
use solve_closure::rising;

// So many leaves are looked for by their edges.
const FEW: usize = 3;

// The leaf a and the leaves above it.
pub fn over(sets: &[NodeSet], trees: &Trees, a: usize) -> NodeSet
    requires { (trees.now.n ≤ length sets.now) × Owners trees.now × (a < trees.now.n) }
    ensures by_index { (l : ℕ) → mem result l ≡ true → l < trees.now.n }
    ensures over_leaf { (g : Graph) → Fits g trees.now → Loopless g → Reduced g trees.now.n sets.now → leaf g a ≡ true → OverLeaf g a result }
{
    let mut over = NodeSet::only(a);
    let mut left = sets[trees.owner[a] as usize].intersection(trees.leaves);
    for _step in 0..FEW {
        let Some(l) = left.pop_first() else {
            return over;
        };
        over = over.with(l);
        let more = sets[trees.owner[l] as usize].intersection(trees.leaves);
        left = left.union(more).difference(over);
    }
    rising(sets, trees.n, a).intersection(trees.leaves)
}
