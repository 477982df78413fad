// One-word fragments: a node without tree edges gets a leaf.
#![tactic(auto)]

ghost use Rattle.std.specs.Prelude.{◌+◌, ◌≤◌};
ghost use Rattle.base_finite.specs.Below.{count, select};
ghost use Rattle.base_finite.specs.Stores.{Written};
ghost use Rattle.base_tables.specs.Trees.{Parents};
ghost use Rattle.sheet_grow.specs.Grow.{BareSet, bare_in};

use base_nodeset::NodeSet;
use base_tables::trees::{inner_nodes, root_nodes};

// The nodes without tree edges.
pub fn bare_nodes(parent: &[u8], n: usize) -> NodeSet
    requires { Parents n parent.now }
    ensures { BareSet n parent.now result }
{
    root_nodes(parent, n).difference(inner_nodes(parent, n))
}

// The table of the grown graph, and its number of nodes: a leaf below each bare node, numbered from n upward by ascending node.
pub fn grow(parent: &mut [u8], n: usize) -> usize
    requires { Parents n parent.old × (n + count 128 (bare_in n parent.old) ≤ 128) }
    ensures { Written parent.old n (select 128 (bare_in n parent.old)) parent.new result }
{
    let bare = bare_nodes(parent, n);
    bare.list(parent, n)
}
