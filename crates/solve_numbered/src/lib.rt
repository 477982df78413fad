// The readings of a graph that has some, by their numbers: how many there are, and the one with a number.
#![tactic(auto)]

ghost use Rattle.std.specs.Prelude.{◌≡◌, ◌%◌, ◌≤◌, length, take, drop};
ghost use Rattle.graph.specs.Graph.{Graph};
ghost use Rattle.graph.specs.Order.{count_answer};
ghost use Rattle.theory_list.specs.Readings.{listed};
ghost use Rattle.theory_list.specs.Settled.{settled};
ghost use Rattle.base_tables.specs.Trees.{Bounded, TreesOf};
ghost use Rattle.solve_reduce.specs.Reduced.{LooplessForm};
ghost use Rattle.solve_levels.specs.Decisions.{Room};
ghost use Rattle.solve_levels.specs.Levels.{Stack, state};
ghost use Rattle.solve_walk.specs.States.{Walkable};
ghost use Rattle.solve_numbered.specs.Numbered.{Tables, Reaches, Finds};

use base_nodeset::NodeSet;
use base_tables::trees::Trees;
use graph::{Count, LAST};
use solve_levels::{Decision, Level, SMALL, SMALL_STACK, STACK, UNTAKEN, slot};
use solve_reduce::reduced::width;
use solve_reduce::settle::settle;
use solve_walk::steps::{first, next};

// A choice adds a pair to the descent relation, so no walk makes more of them than there are pairs.
pub const TRAIL: usize = 16384;

// The same for a small sheet.
pub const SMALL_TRAIL: usize = 1024;

// There are fewer readings than the number asked for.
#[derive(Clone, Copy)]
pub struct TooFew {
    pub all: usize,
}

// To the reading with the number k, counted from 1, if there are so many.
pub fn reach(
    rows: &[NodeSet],
    trees: &Trees,
    states: &mut [NodeSet],
    trail: &mut [Decision],
    k: usize,
) -> Result<Level, TooFew>
    requires { Walkable trees.now rows.now × Stack trees.now.n states.old × Room trees.now.n trail.old × (1 ≤ k) }
    ensures { (s : Walkable trees.now rows.now) → Reaches s.walked.graph trail.new states.new k result }
{
    let mut at = first(rows, trees, states, trail);
    for passed in 1..k {
        at = next(trees, states, trail, at).ok_or(TooFew { all: passed })?;
    }
    Ok(at)
}

// With tables of S sets and T decisions.
fn count_in<const S: usize, const T: usize>(rows: &[NodeSet], trees: &Trees) -> Count
    requires { Walkable trees.now rows.now × Tables trees.now.n S T }
    ensures { (s : Walkable trees.now rows.now) → result ≡ count_answer (length (listed s.walked.graph)) }
{
    let mut states = [NodeSet::empty(); S];
    let mut trail = [UNTAKEN; T];
    match reach(rows, trees, &mut states, &mut trail, LAST + 1) {
        Ok(_) => Count::More,
        Err(few) => Count::Exactly(few.all),
    }
}

// How many there are, up to the last number.
pub fn count(rows: &[NodeSet], trees: &Trees) -> Count
    requires { Walkable trees.now rows.now }
    ensures { (s : Walkable trees.now rows.now) → result ≡ count_answer (length (listed s.walked.graph)) }
{
    if trees.n <= SMALL {
        count_in::<SMALL_STACK, SMALL_TRAIL>(rows, trees)
    } else {
        count_in::<STACK, TRAIL>(rows, trees)
    }
}

// The reading at a level where no choice is left, in the first n bytes.
pub fn read_off(states: &[NodeSet], trees: &Trees, opened: usize, out: &mut [u8])
    requires { Stack trees.now.n states.now × Bounded trees.now × (trees.now.n ≤ length out.old) }
    ensures out_unchanged { drop trees.now.n out.new ≡ drop trees.now.n out.old }
    ensures out_after { (g : Graph) → TreesOf g trees.now → LooplessForm g trees.now.n (state trees.now.n (opened % 32) states.now) →
        take trees.now.n out.new ≡ settled g }
{
    let wide = width(trees.n);
    let from = slot(trees.n, opened);
    settle(&states[from..from + wide], trees, out);
}

// With tables of S sets and T decisions.
fn find_in<const S: usize, const T: usize>(
    rows: &[NodeSet],
    trees: &Trees,
    k: usize,
    out: &mut [u8],
) -> bool
    requires in_bounds { Walkable trees.now rows.now × (1 ≤ k) × (trees.now.n ≤ length out.old) }
    requires tables { Tables trees.now.n S T }
    ensures { (s : Walkable trees.now rows.now) → Finds s.walked.graph k out.old result out.new }
{
    let mut states = [NodeSet::empty(); S];
    let mut trail = [UNTAKEN; T];
    let Ok(at) = reach(rows, trees, &mut states, &mut trail, k) else {
        return false;
    };
    read_off(&states, trees, at.opened, out);
    true
}

// Writes the reading with the number k, counted from 1, into the first n bytes, if there are so many.
pub fn find(rows: &[NodeSet], trees: &Trees, k: usize, out: &mut [u8]) -> bool
    requires { Walkable trees.now rows.now × (1 ≤ k) × (trees.now.n ≤ length out.old) }
    ensures { (s : Walkable trees.now rows.now) → Finds s.walked.graph k out.old result out.new }
{
    if trees.n <= SMALL {
        find_in::<SMALL_STACK, SMALL_TRAIL>(rows, trees, k, out)
    } else {
        find_in::<STACK, TRAIL>(rows, trees, k, out)
    }
}
