// What can be read off a placing's bytes and its rows: that it is a placing, a solved form, and that no leaf carries two
// roots.
ghost use Rattle.std.specs.Prelude.{◌≡◌, ◌↔◌, true, not, ◌&&◌, ◌≤◌, ◌<◌, length};
ghost use Rattle.base_finite.specs.Below.{any};
ghost use Rattle.base_tables.specs.Rows.{Long, in_row};
ghost use Rattle.check_placing.specs.Tests.{fits as fitting, AllFit, outside, downward_in, single_in};

use base_nodeset::NodeSet;
use base_tables::trees::Trees;
use graph::NONE;
use solve_closure::cyclic;

// 255, or a leaf where v is a root.
#[tactic(auto, unfolding(crate::specs::Tests::fits))]
fn fits(byte: u8, v: usize, trees: &Trees) -> bool
    requires { (v < trees.now.n) × (trees.now.n ≤ 128) }
    ensures { result ≡ fitting trees.now v byte }
{
    let leaf = byte as usize;
    byte == NONE || leaf < trees.n && trees.roots.has(v) && trees.leaves.has(leaf)
}

pub fn is_placing(placing: &[u8], trees: &Trees) -> bool
    requires { (trees.now.n ≤ 128) × (trees.now.n ≤ length placing.now) }
    ensures { (result ≡ true) ↔ AllFit trees.now placing.now }
{
    (0..trees.n).all(|v| fits(placing[v], v, trees))
}

// Some dominance edge of l's doesn't run downward.
fn strays(heads: &[NodeSet], rows: &[NodeSet], l: usize) -> bool
    requires { Long heads.now × Long rows.now × (l < 128) }
    ensures { result ≡ any 128 (outside heads.now rows.now l) }
{
    !heads[l].difference(rows[l]).is_empty()
}

fn downward(heads: &[NodeSet], rows: &[NodeSet], n: usize) -> bool
    requires { Long heads.now × Long rows.now × (n ≤ 128) }
    ensures { result ≡ downward_in n heads.now rows.now }
{
    for l in 0..n {
        if strays(heads, rows, l) {
            return false;
        }
    }
    true
}

// The rows are a forest's, and each dominance edge runs downward.
pub fn solved(heads: &[NodeSet], rows: &[NodeSet], n: usize) -> bool
    requires { Long heads.now × Long rows.now × (n ≤ 128) }
    ensures { result ≡ (not (any n (λ u. in_row rows.now u u))
        && downward_in n heads.now rows.now) }
{
    !cyclic(rows, n) && downward(heads, rows, n)
}

// No leaf carries two roots.
pub fn single(placing: &[u8], n: usize) -> bool
    requires { n ≤ length placing.now }
    ensures { result ≡ single_in n placing.now }
{
    let mut used = NodeSet::empty();
    for &byte in &placing[..n] {
        let leaf = NodeSet::of_byte(byte);
        if !used.intersection(leaf).is_empty() {
            return false;
        }
        used = leaf.union(used);
    }
    true
}
