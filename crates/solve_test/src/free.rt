// Free fragments: which there are in a set, and that they can be taken out of it until none is left.
ghost use Rattle.std.specs.Prelude.{◌≡◌, true, ◌↔◌, ◌<◌};
ghost use Rattle.base_nodeset.specs.Set.{mem};
ghost use Rattle.base_tables.specs.Rows.{Long, in_row, Closed};
ghost use Rattle.solve_test.specs.Tables.{Symmetric};
ghost use Rattle.solve_test.specs.Free.{Spreads, Apart, Taken, Round, Ended};

use base_nodeset::NodeSet;
use base_tables::sets::tops;

// What is reached from `from` by steps to near members of `within`. Pending is what is reached and not yet gone on from.
fn grow(near: &[NodeSet], from: NodeSet, within: NodeSet) -> NodeSet
    requires { Long near.now }
    ensures { Spreads (in_row near.now) (mem within) (mem from) result }
{
    let mut pending = from.intersection(within);
    let mut unseen = within.difference(from);
    while let Some(f) = pending.pop_first() {
        let new = near[f].intersection(unseen);
        pending = pending.union(new);
        unseen = unseen.difference(new);
    }
    within.difference(unseen)
}

// Nothing within is joined to two of the leaves. What is joined to the last one need not be known.
fn apart(rows: &[NodeSet], near: &[NodeSet], leaves: NodeSet, within: NodeSet) -> bool
    requires long { Long rows.now × Long near.now }
    requires symmetric { Symmetric (in_row near.now) }
    ensures { (result ≡ true) ↔ Apart (in_row rows.now) (in_row near.now) (mem leaves) (mem within) }
{
    let mut left = leaves;
    let mut seen = NodeSet::empty();
    while let Some(l) = left.pop_first() {
        let below = rows[l];
        if !below.intersection(seen).is_empty() {
            return false;
        }
        if left.is_empty() {
            return true;
        }
        let joined = grow(near, below, within);
        seen = seen.union(joined);
    }
    true
}

// The set without f, where nothing else in it is joined to two leaves of f.
fn take_out(rows: &[NodeSet], near: &[NodeSet], leaf: &[NodeSet], rem: NodeSet, f: usize) -> NodeSet
    requires long { Long rows.now × Long near.now × Long leaf.now × (f < 128) }
    requires symmetric { Symmetric (in_row near.now) }
    ensures { Taken (in_row rows.now) (in_row near.now) (in_row leaf.now) rem f result }
{
    let others = rem.without(f);
    let leaves = leaf[f];
    if apart(rows, near, leaves, others) {
        others
    } else {
        rem
    }
}

// The topmost members gone through once, the free ones taken out.
fn round(rows: &[NodeSet], near: &[NodeSet], leaf: &[NodeSet], rem: NodeSet) -> NodeSet
    requires long { Long rows.now × Long near.now × Long leaf.now }
    requires symmetric { Symmetric (in_row near.now) }
    ensures { Round (in_row rows.now) (in_row near.now) (in_row leaf.now) rem result }
{
    let mut kept = rem;
    let mut left = tops(rows, rem);
    while let Some(f) = left.pop_first() {
        kept = take_out(rows, near, leaf, kept, f);
    }
    kept
}

// Rounds until no fragment is left, or a round takes none.
pub fn eliminate(rows: &[NodeSet], near: &[NodeSet], leaf: &[NodeSet], roots: NodeSet) -> bool
    requires long { Long rows.now × Long near.now × Long leaf.now }
    requires symmetric { Symmetric (in_row near.now) }
    ensures { Closed (in_row rows.now) →
        Ended (in_row rows.now) (in_row near.now) (in_row leaf.now) roots result }
{
    let mut rem = roots;
    while !rem.is_empty() {
        let rest = round(rows, near, leaf, rem);
        if rest.count() == rem.count() {
            return false;
        }
        rem = rest;
    }
    true
}
