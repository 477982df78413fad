// Where no choice is left: each root under the leaf of its one edge that stays.
ghost use Rattle.std.specs.Prelude.{◌≡◌, cond, ℕ, ◌≤◌, ltb, length, get_or, take, drop};
ghost use Rattle.graph.specs.Graph.{Graph, none};
ghost use Rattle.theory_list.specs.Settled.{within, settled};
ghost use Rattle.base_tables.specs.Trees.{Bounded, TreesOf};
ghost use Rattle.solve_reduce.specs.Reduced.{Wide, LooplessForm};

use base_nodeset::NodeSet;
use base_tables::trees::Trees;
use graph::NONE;

// A node as a byte, and no node for what is none.
fn byte(l: usize, n: usize) -> u8
    requires { n ≤ 128 }
    ensures { result ≡ within n l }
{
    if l < n {
        return l as u8;
    }
    NONE
}

// No node in the first n bytes.
fn clear(out: &mut [u8], n: usize)
    requires { n ≤ length out.old }
    ensures { (k : ℕ) → get_or out.new k 0 ≡ cond (ltb k n) none (get_or out.old k 0) }
{
    out[..n].fill(NONE);
}

pub fn settle(sets: &[NodeSet], trees: &Trees, out: &mut [u8])
    requires { Wide trees.now.n sets.now × Bounded trees.now × (trees.now.n ≤ length out.old) }
    ensures out_unchanged { drop trees.now.n out.new ≡ drop trees.now.n out.old }
    ensures out_after { (g : Graph) → TreesOf g trees.now → LooplessForm g trees.now.n sets.now → take trees.now.n out.new ≡ settled g }
{
    let n = trees.n;
    clear(out, n);
    let mut left = trees.roots;
    while let Some(v) = left.pop_first() {
        out[v] = byte(sets[v].lowest(), n);
    }
}
