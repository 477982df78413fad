// From reading to reading.
ghost use Rattle.std.specs.Prelude.{ℕ, ◌+◌, ◌<◌};
ghost use Rattle.graph.specs.Graph.{Graph};
ghost use Rattle.base_tables.specs.Trees.{Fits};
ghost use Rattle.solve_levels.specs.Decisions.{upper_at, lower_at, Room};
ghost use Rattle.solve_levels.specs.Levels.{Stack};
ghost use Rattle.solve_branch.specs.States.{Stands, Leaves};
ghost use Rattle.solve_branch.specs.Dives.{Arrives};
ghost use Rattle.solve_walk.specs.States.{Walkable, Standing, Departing};
ghost use Rattle.solve_walk.specs.Moves.{Moves};

use base_nodeset::NodeSet;
use base_tables::trees::Trees;
use solve_branch::dive::{Stuck, back, dead, turn};
use solve_descend::descend;
use solve_levels::{Decision, Level, start};

// The first reading. The graph has a solved form, so the way down leads to one.
pub fn first(
    rows: &[NodeSet],
    trees: &Trees,
    states: &mut [NodeSet],
    trail: &mut [Decision],
) -> Level
    requires { Walkable trees.now rows.now × Stack trees.now.n states.old × Room trees.now.n trail.old }
    ensures { (s : Walkable trees.now rows.now) → Stands s.walked.graph trail.new states.new result 0 }
{
    let outset = start(rows, trees, states);
    let Ok(reading) = descend(trees, states, trail, outset) else {
        return outset;
    };
    reading
}

// Into the other half of the choice at `last`, and down to the next reading, if the half has one.
fn hop(
    trees: &Trees,
    states: &mut [NodeSet],
    trail: &mut [Decision],
    at: Level,
    last: usize,
) -> Result<Level, Stuck>
    requires { Departing trees.now trail.old states.old at last × Room trees.now.n trail.old × (upper_at trail.old last < lower_at trail.old last) }
    ensures { (g : Graph) (k : ℕ) → Fits g trees.now → Leaves g trail.old states.old at (last + 1) k →
        Arrives g trail.new states.new last k result }
{
    let half = turn(trees, states, trail, at, last);
    let leaf = trail[last].upper as usize;
    if dead(trees, states, half.opened, leaf) {
        return Err(Stuck { at: half });
    }
    descend(trees, states, trail, half)
}

// The reading after this one: below the last first half's other half, or that of the one before it.
pub fn next(
    trees: &Trees,
    states: &mut [NodeSet],
    trail: &mut [Decision],
    at: Level,
) -> Option<Level>
    requires { ((k : ℕ) × Standing trees.now trail.old states.old at k) × Room trees.now.n trail.old }
    ensures { (g : Graph) (k : ℕ) → Fits g trees.now → Stands g trail.old states.old at k →
        Moves g trail.new states.new (k + 1) result }
{
    let mut here = at;
    let mut top = at.depth;
    loop {
        let left = back(trail, top);
        if left == 0 {
            return None;
        }
        top = left - 1;
        match hop(trees, states, trail, here, top) {
            Ok(reading) => return Some(reading),
            Err(stuck) => here = stuck.at,
        }
    }
}
