// What the test looks up: the leaves of each fragment, the roots comparable with a root.
ghost use Rattle.std.specs.Prelude.{◌<◌};
ghost use Rattle.base_nodeset.specs.Set.{mem};
ghost use Rattle.base_tables.specs.Rows.{Long, in_row};
ghost use Rattle.solve_test.specs.Tables.{Blank, Put, PutAll, Owned, LeafRows, NearRows};

use base_nodeset::NodeSet;

// The members of the set, put into row u.
fn put(rows: &mut [NodeSet], u: usize, set: NodeSet)
    requires { Long rows.old × (u < 128) }
    ensures { Put (in_row rows.old) u set rows.new }
{
    rows[u] = rows[u].union(set);
}

// Each leaf in the row of its fragment's root.
pub fn leaf_rows(owner: &[u8], leaves: NodeSet, rows: &mut [NodeSet])
    requires { Owned (mem leaves) owner.now × Blank rows.old }
    ensures { LeafRows (mem leaves) owner.now rows.new }
{
    let mut left = leaves;
    while let Some(l) = left.pop_first() {
        put(rows, owner[l] as usize, NodeSet::only(l));
    }
}

// f, put into the row of each member of the set.
fn put_all(set: NodeSet, f: usize, rows: &mut [NodeSet])
    requires { Long rows.old × (f < 128) }
    ensures { PutAll (in_row rows.old) set f rows.new }
{
    let only = NodeSet::only(f);
    let mut left = set;
    while let Some(h) = left.pop_first() {
        put(rows, h, only);
    }
}

// In the row of each root the roots below it and above it.
pub fn near_rows(below: &[NodeSet], roots: NodeSet, rows: &mut [NodeSet])
    requires { Long below.now × Blank rows.old }
    ensures { NearRows (in_row below.now) (mem roots) rows.new }
{
    let mut left = roots;
    while let Some(f) = left.pop_first() {
        let under = below[f].intersection(roots);
        put(rows, f, under);
        put_all(under, f, rows);
    }
}
