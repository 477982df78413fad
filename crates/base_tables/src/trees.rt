// A table of parents: the way from a node up to its fragment's root, the roots, the inner nodes and the leaves.
ghost use Rattle.std.specs.Prelude.{◌≡◌, true, ℕ, ◌≤◌, ◌<◌, ltb, length};
ghost use Rattle.base_nodeset.specs.Set.{mem};
ghost use Rattle.graph.specs.Graph.{Graph, leaf};
ghost use Rattle.theory_forest.specs.Shape.{Shaped};
ghost use Rattle.base_tables.specs.Trees.{Parents, InnerSet, RootSet, NodesWith, WithParent, WithNode, TreeOf, top_in, Filled, tied_in, Bounded, TreesOf, Owners, Fits};

use base_nodeset::NodeSet;
use graph::NONE;

// How many nodes there are, which are leaves and which are roots, and of each node the root of its fragment.
#[derive(Clone, Copy)]
pub struct Trees {
    pub n: usize,
    pub leaves: NodeSet,
    pub roots: NodeSet,
    pub owner: [u8; 128],
}

// The root of v's fragment: up to a node without a parent.
pub fn own(parent: &[u8], n: usize, v: usize) -> usize
    requires { Parents n parent.now × (v < n) }
    ensures { (result ≡ top_in n parent.now v) × (result < n) }
{
    let mut at = v;
    for _step in 0..n {
        let above = parent[at];
        if above == NONE {
            return at;
        }
        at = above as usize;
    }
    at
}

// The root of each node's fragment.
pub fn owners(parent: &[u8], n: usize, owner: &mut [u8])
    requires { Parents n parent.now × (n ≤ length owner.old) }
    ensures { Filled n parent.now owner.old owner.new n }
{
    for v in 0..n {
        owner[v] = own(parent, n, v) as u8;
    }
}

// One of the two is the other's parent.
pub fn tied(parent: &[u8], u: usize, v: usize) -> bool
    requires { (length parent.now ≡ 128) × (u < 128) × (v < 128) }
    ensures { result ≡ tied_in parent.now u v }
{
    parent[v] as usize == u || parent[u] as usize == v
}

fn with_parent(set: NodeSet, above: u8) -> NodeSet
    ensures { WithParent set above result }
{
    if above < 128 {
        set.with(above as usize)
    } else {
        set
    }
}

// The nodes that are some node's parent.
pub fn inner_nodes(parent: &[u8], n: usize) -> NodeSet
    requires { Parents n parent.now }
    ensures { InnerSet n parent.now result }
{
    let mut set = NodeSet::empty();
    for &above in &parent[..n] {
        set = with_parent(set, above);
    }
    set
}

fn with_node(set: NodeSet, v: usize, entry: u8, x: u8) -> NodeSet
    requires { v < 128 }
    ensures { WithNode set v entry x result }
{
    if entry == x { set.with(v) } else { set }
}

// The nodes whose entry in the table is x.
pub fn nodes_with(table: &[u8], n: usize, x: u8) -> NodeSet
    requires { (n ≤ 128) × (n ≤ length table.now) }
    ensures { NodesWith n table.now x result }
{
    let mut set = NodeSet::empty();
    for v in 0..n {
        set = with_node(set, v, table[v], x);
    }
    set
}

// The nodes without a parent.
pub fn root_nodes(parent: &[u8], n: usize) -> NodeSet
    requires { Parents n parent.now }
    ensures { RootSet n parent.now result }
{
    nodes_with(parent, n, NONE)
}

// The numbers below n.
fn numbers(n: usize) -> NodeSet
    requires { n ≤ 128 }
    ensures { (v : ℕ) → mem result v ≡ ltb v n }
{
    let mut set = NodeSet::empty();
    for v in 0..n {
        set = set.with(v);
    }
    set
}

pub fn leaf_nodes(parent: &[u8], n: usize) -> NodeSet
    requires { Parents n parent.now }
    ensures by_index { (v : ℕ) → mem result v ≡ true → v < n }
    ensures v_value { (g : Graph) → Shaped g → TreeOf g n parent.now → (v : ℕ) → mem result v ≡ leaf g v }
{
    numbers(n).difference(inner_nodes(parent, n))
}

// The trees without their owners: of these the table says nothing yet.
pub fn ends(parent: &[u8], n: usize) -> Trees
    requires { Parents n parent.now }
    ensures bounded { Bounded result × (result.n ≡ n) }
    ensures trees_of { (g : Graph) → Shaped g → TreeOf g n parent.now → TreesOf g result }
{
    Trees {
        n,
        leaves: leaf_nodes(parent, n),
        roots: root_nodes(parent, n),
        owner: [0; 128],
    }
}

impl Trees {
    // The owners, where the ends are known.
    pub fn fill_owners(&mut self, parent: &[u8])
        requires { Parents self.old.n parent.now × Bounded self.old }
        ensures ends { (self.new.n ≡ self.old.n) × (self.new.leaves ≡ self.old.leaves) × (self.new.roots ≡ self.old.roots) }
        ensures bounded { Owners self.new }
        ensures trees_of { (g : Graph) → Shaped g → TreeOf g self.old.n parent.now → TreesOf g self.old → Fits g self.new }
    {
        owners(parent, self.n, &mut self.owner);
    }
}

pub fn read_trees(parent: &[u8], n: usize) -> Trees
    requires { Parents n parent.now }
    ensures bounded { Owners result × (result.n ≡ n) }
    ensures trees_of { (g : Graph) → Shaped g → TreeOf g n parent.now → Fits g result }
{
    let mut trees = ends(parent, n);
    trees.fill_owners(parent);
    trees
}
