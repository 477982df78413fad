// Down by halves that are not tested, and back by the last decision that has a half left.
ghost use Rattle.std.specs.Prelude.{◌≡◌, ℕ, ◌+◌, ◌*◌, ◌%◌, ◌≤◌, ◌<◌, length, true};
ghost use Rattle.base_nodeset.specs.Set.{mem};
ghost use Rattle.graph.specs.Graph.{Graph, own, leaf as is_leaf};
ghost use Rattle.theory_walk.specs.Walk.{Valid};
ghost use Rattle.base_tables.specs.Trees.{Owners, Fits};
ghost use Rattle.solve_below.specs.Below.{Fragments, Under};
ghost use Rattle.solve_reduce.specs.Reduced.{LooplessForm};
ghost use Rattle.solve_reduce.specs.Chosen.{Bounded, Chosen};
ghost use Rattle.solve_levels.specs.Decisions.{upper_at, lower_at, decisions, opens, Noted, Room, Kept, written, turned};
ghost use Rattle.solve_levels.specs.Levels.{Stack, state, Matches};
ghost use Rattle.solve_branch.specs.States.{Dives, Diving};
ghost use Rattle.solve_branch.specs.Dives.{Reaches, Deeper, Turns};
ghost use Rattle.solve_branch.specs.Dead.{Meets, Dead};

use base_nodeset::NodeSet;
use base_tables::trees::Trees;
use solve_levels::{Decision, LEVELS, Level, back_to, down, slot};
use solve_reduce::choose::{Fork, choose};
use solve_reduce::reduced::width;

// The walk is at a level that has no reading below it.
#[derive(Clone, Copy)]
pub struct Stuck {
    pub at: Level,
}

// The choice at a level.
fn fork(states: &[NodeSet], n: usize, opened: usize) -> Option<Fork>
    requires { Stack n states.now × (n ≤ 128) }
    ensures bounded { Bounded n result }
    ensures chosen { (g : Graph) → LooplessForm g n (state n (opened % 32) states.now) → Chosen g result }
{
    let wide = width(n);
    let from = slot(n, opened);
    choose(&states[from..from + wide], n)
}

// Whether one of the leaves is above one of the nodes.
fn meets(sets: &[NodeSet], nodes: NodeSet, leaves: NodeSet) -> bool
    requires { (l : ℕ) → mem leaves l ≡ true → l < length sets.now }
    ensures { Meets sets.now nodes leaves result }
{
    let mut left = leaves;
    while let Some(l) = left.pop_first() {
        if !sets[l].intersection(nodes).is_empty() {
            return true;
        }
    }
    false
}

// Whether it shows at the leaf that a level's graph has no solved form: a cycle goes through it, or a node is below it and below
// another leaf of its fragment. A cycle that an edge closes goes through the leaf that the edge starts from.
pub fn dead(trees: &Trees, states: &[NodeSet], opened: usize, leaf: usize) -> bool
    requires { Owners trees.now × Stack trees.now.n states.now × (leaf < trees.now.n) }
    ensures { (g : Graph) → Fits g trees.now → Fragments trees.now.n (own g) (state trees.now.n 33 states.now) →
        Under g (state trees.now.n (opened % 32) states.now) → is_leaf g leaf ≡ true → Dead g leaf result }
{
    let wide = width(trees.n);
    let from = slot(trees.n, opened);
    let sets = &states[from..from + wide];
    let row = sets[leaf];
    if row.has(leaf) {
        return true;
    }
    let last = wide * (LEVELS + 1);
    let fragments = &states[last..last + wide];
    let nodes = fragments[trees.owner[leaf] as usize];
    let others = nodes.intersection(trees.leaves).without(leaf);
    meets(sets, row, others)
}

// A decision, written down.
fn write(trail: &mut [Decision], i: usize, upper: usize, lower: usize)
    requires { (i < length trail.old) × (upper < 128) × (lower < 128) }
    ensures { trail.new ≡ written i upper lower trail.old }
{
    trail[i] = Decision {
        upper: upper as u8,
        lower: lower as u8,
    };
}

// The other half of a choice, in place of the one taken.
fn swap(trail: &mut [Decision], i: usize)
    requires { i < length trail.old }
    ensures { trail.new ≡ turned i trail.old }
{
    let Decision { upper, lower } = trail[i];
    trail[i] = Decision {
        upper: lower,
        lower: upper,
    };
}

// Into the other half of the choice at `last`, the last one that is open.
pub fn turn(
    trees: &Trees,
    states: &mut [NodeSet],
    trail: &mut [Decision],
    at: Level,
    last: usize,
) -> Level
    requires { Owners trees.now × Stack trees.now.n states.old × ((i : ℕ) → i < last + 1 → Noted trees.now.n trail.old i) × (at.opened ≤ 2 * length trail.old) }
    ensures trail_after { (trail.new ≡ turned last trail.old) × (result.depth ≡ last + 1) × (result.opened ≤ 2 * length trail.old) }
    ensures cases { (g : Graph) → Fits g trees.now → Matches g trail.old states.old at → last ≤ at.depth →
        opens trail.old (last + 1) ≡ at.opened →
        Valid g (decisions trail.old (last + 1)) → upper_at trail.old last < lower_at trail.old last →
        Matches g trail.new states.new result × (result.kept ≤ result.opened) }
{
    let there = back_to(trees, states, trail, at, last);
    swap(trail, last);
    down(trees, states, trail, there)
}

// How many decisions are left without those after the last first half.
pub fn back(trail: &[Decision], depth: usize) -> usize
    requires { depth ≤ length trail.now }
    ensures { Turns trail.now depth result }
{
    for last in (0..depth).rev() {
        let taken = trail[last];
        if taken.upper < taken.lower {
            return last + 1;
        }
    }
    0
}

// Down by first halves, to a reading or to a graph that is seen to have none.
pub fn dive(
    trees: &Trees,
    states: &mut [NodeSet],
    trail: &mut [Decision],
    at: Level,
) -> Result<Level, Stuck>
    requires { Diving trees.now trail.old states.old at × Room trees.now.n trail.old }
    ensures kept { Kept at.depth trail.old trail.new × Deeper at.depth result }
    ensures reaches { (g : Graph) (k : ℕ) → Fits g trees.now → Dives g trail.old states.old at k →
        Reaches g trail.new states.new k result }
{
    let mut here = at;
    loop {
        let Some(choice) = fork(states, trees.n, here.opened) else {
            return Ok(here);
        };
        write(trail, here.depth, choice.first, choice.second);
        here = down(trees, states, trail, here);
        if dead(trees, states, here.opened, choice.first) {
            return Err(Stuck { at: here });
        }
    }
}
