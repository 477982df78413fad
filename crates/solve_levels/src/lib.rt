// The stack of states. One level deeper is a copy of the last with an edge more, and going back is free. In the second half of a
// choice the walk does not come back to the level above, so that the edge is added there. Where the walk goes back further than the
// levels kept, its decisions are replayed from the outset.
#![tactic(auto)]

ghost use Rattle.std.specs.Prelude.{◌≡◌, true, ◌⊎◌, ℕ, ◌+◌, ◌*◌, ◌%◌, ◌≤◌, ◌<◌, length};
ghost use Rattle.graph.specs.Graph.{Graph, Descent, root, own};
ghost use Rattle.theory_forest.specs.Shape.{Shaped};
ghost use Rattle.theory_list.specs.Redundancy.{Loopless};
ghost use Rattle.theory_list.specs.Keeping.{Fresh};
ghost use Rattle.theory_walk.specs.Walk.{Valid};
ghost use Rattle.base_tables.specs.Trees.{Bounded, TreesOf, Owners, Fits};
ghost use Rattle.base_tables.specs.Rows.{Long, Rows};
ghost use Rattle.solve_below.specs.Below.{Fragments, BelowRoot, Under};
ghost use Rattle.solve_reduce.specs.Reduced.{wide};
ghost use Rattle.solve_levels.specs.Decisions.{Trail, upper_at, lower_at, decisions, opens, reached, Noted};
ghost use Rattle.solve_levels.specs.Levels.{Stack, state, Matches, Ready};

use base_nodeset::NodeSet;
use base_tables::trees::Trees;
use solve_below::{below, fragments};
use solve_reduce::reduced::{add, reduce, width};

// The levels that are kept.
pub const LEVELS: usize = 32;

// The sets of all states of 128 nodes: the levels, the outset, and the fragments.
pub const STACK: usize = 4386;

// Sheets with so many nodes at most are walked in fewer sets.
pub const SMALL: usize = 32;

// The sets of all their states.
pub const SMALL_STACK: usize = 1122;

// A decision adds an edge, from the leaf `upper` to the root of the leaf `lower`. It is the first half of its choice where `upper` is
// the lower number.
#[derive(Clone, Copy)]
pub struct Decision {
    pub upper: u8,
    pub lower: u8,
}

// What stands in a table of decisions before they are taken.
pub const UNTAKEN: Decision = Decision { upper: 0, lower: 0 };

// How many decisions are taken, how many of them are first halves, and the lowest such number whose level is kept.
#[derive(Clone, Copy)]
pub struct Level {
    pub depth: usize,
    pub opened: usize,
    pub kept: usize,
}

// Where a level stands.
pub fn slot(n: usize, opened: usize) -> usize
    requires { n ≤ 128 }
    ensures { (result ≡ wide n * (opened % 32)) × (result + wide n ≤ wide n * 32) }
{
    width(n) * (opened % LEVELS)
}

// At the outset of the walk through the readings of the graph with these rows.
pub fn start(rows: &[NodeSet], trees: &Trees, states: &mut [NodeSet]) -> Level
    requires { Long rows.now × Owners trees.now × Stack trees.now.n states.old }
    ensures depth_value { (result.depth ≡ 0) × (result.opened ≡ 0) × (result.kept ≡ 0) }
    ensures cases { (g : Graph) (trail : Trail) → Fits g trees.now → Rows (Descent g) rows.now → Matches g trail states.new result }
{
    let wide = width(trees.n);
    let outset = wide * LEVELS;
    let last = outset + wide;
    fragments(trees, &mut states[last..last + wide]);
    reduce(rows, trees, &mut states[outset..outset + wide]);
    states.copy_within(outset..last, 0);
    Level {
        depth: 0,
        opened: 0,
        kept: 0,
    }
}

// The root r and the nodes under it, at a level.
fn below_at(states: &[NodeSet], trees: &Trees, opened: usize, r: usize) -> NodeSet
    requires { Stack trees.now.n states.now × Bounded trees.now × (r < trees.now.n) }
    ensures { (g : Graph) → Shaped g → TreesOf g trees.now → Fragments trees.now.n (own g) (state trees.now.n 33 states.now) →
        Under g (state trees.now.n (opened % 32) states.now) → root g r ≡ true → BelowRoot g r result }
{
    let wide = width(trees.n);
    let from = slot(trees.n, opened);
    let last = wide * (LEVELS + 1);
    below(
        &states[from..from + wide],
        &states[last..last + wide],
        trees,
        r,
    )
}

// The slot for the level where the next decision leads: one more with a copy of this level's state, and in a second half the same.
fn deepen(states: &mut [NodeSet], n: usize, trail: &[Decision], at: Level) -> Level
    requires { Stack n states.old × (n ≤ 128) × (at.depth < length trail.now) × (at.opened ≤ 2 * length trail.now) }
    ensures depth_value { (result.depth ≡ at.depth + 1) × (at.opened ≤ result.opened) × (result.opened ≤ at.opened + 1) × (at.kept ≤ at.opened → result.kept ≤ at.opened) }
    ensures ready { (g : Graph) → n ≡ g.nodes → Matches g trail.now states.old at → at.kept ≤ at.opened →
        Ready g trail.now states.new at result }
{
    let depth = at.depth + 1;
    let taken = trail[at.depth];
    if taken.upper < taken.lower {
        let opened = at.opened + 1;
        let from = slot(n, at.opened);
        states.copy_within(from..from + width(n), slot(n, opened));
        return Level {
            depth,
            opened,
            kept: oldest(at.kept, opened),
        };
    }
    Level {
        depth,
        opened: at.opened,
        kept: at.kept,
    }
}

// The decision at this depth, taken.
pub fn down(trees: &Trees, states: &mut [NodeSet], trail: &[Decision], at: Level) -> Level
    requires { Owners trees.now × Stack trees.now.n states.old × Noted trees.now.n trail.now at.depth × (at.opened ≤ 2 * length trail.now) }
    ensures depth_value { (result.depth ≡ at.depth + 1) × (result.opened ≤ at.opened + 1) × (at.kept ≤ at.opened → result.kept ≤ at.opened) }
    ensures cases { (g : Graph) → Fits g trees.now → Matches g trail.now states.old at → at.kept ≤ at.opened →
        Shaped (reached g trail.now at.depth) → Loopless (reached g trail.now at.depth) →
        Fresh (reached g trail.now at.depth) (upper_at trail.now at.depth)
        (own (reached g trail.now at.depth) (lower_at trail.now at.depth)) →
        Matches g trail.now states.new result × (result.kept ≤ result.opened) }
{
    let taken = trail[at.depth];
    let upper = taken.upper as usize;
    let root = trees.owner[taken.lower as usize] as usize;
    let below = below_at(states, trees, at.opened, root);
    let next = deepen(states, trees.n, trail, at);
    let wide = width(trees.n);
    let to = slot(trees.n, next.opened);
    add(&mut states[to..to + wide], trees, upper, root, below);
    next
}

// Of the numbers from `kept` on those whose levels are still there where that with the number `opened` is.
fn oldest(kept: usize, opened: usize) -> usize
    ensures { (kept ≤ result) × (opened < result + 32) × ((result ≡ kept) ⊎ (result + 31 ≡ opened)) }
{
    if opened < LEVELS {
        return kept;
    }
    let lowest = opened - (LEVELS - 1);
    if kept < lowest { lowest } else { kept }
}

fn replay(trees: &Trees, states: &mut [NodeSet], trail: &[Decision], depth: usize) -> Level
    requires { Owners trees.now × Stack trees.now.n states.old × ((i : ℕ) → i < depth → Noted trees.now.n trail.now i) }
    ensures depth_value { (result.depth ≡ depth) × (result.opened ≤ depth) }
    ensures cases { (g : Graph) (at : Level) → Fits g trees.now → Matches g trail.now states.old at →
        Valid g (decisions trail.now depth) →
        Matches g trail.now states.new result × (result.kept ≤ result.opened) }
{
    let wide = width(trees.n);
    let outset = wide * LEVELS;
    states.copy_within(outset..outset + wide, 0);
    let mut at = Level {
        depth: 0,
        opened: 0,
        kept: 0,
    };
    while at.depth < depth {
        at = down(trees, states, trail, at);
    }
    at
}

// Back to the level `depth`, the last one where a choice is open.
pub fn back_to(
    trees: &Trees,
    states: &mut [NodeSet],
    trail: &[Decision],
    at: Level,
    depth: usize,
) -> Level
    requires { Owners trees.now × Stack trees.now.n states.old × ((i : ℕ) → i < depth → Noted trees.now.n trail.now i) }
    ensures depth_value { (result.depth ≡ depth) × ((result.opened < at.opened) ⊎ (result.opened ≤ depth)) }
    ensures cases { (g : Graph) → Fits g trees.now → Matches g trail.now states.old at → depth ≤ at.depth →
        opens trail.now (depth + 1) ≡ at.opened → upper_at trail.now depth < lower_at trail.now depth →
        Valid g (decisions trail.now depth) →
        Matches g trail.now states.new result × (result.kept ≤ result.opened) }
{
    if at.kept < at.opened {
        let opened = at.opened - 1;
        return Level {
            depth,
            opened,
            kept: at.kept,
        };
    }
    replay(trees, states, trail, depth)
}
