// Readings one after the other, as many as there are and as fit, in one walk.
#![tactic(auto)]

ghost use Rattle.std.specs.Prelude.{◌≡◌, IsSome, ◌++◌, ◌+◌, ◌%◌, ◌≤◌, ◌<◌, length, take, drop};
ghost use Rattle.graph.specs.Graph.{Graph};
ghost use Rattle.graph.specs.Order.{limit};
ghost use Rattle.theory_list.specs.Settled.{settled};
ghost use Rattle.base_tables.specs.Trees.{Bounded, TreesOf, Fits};
ghost use Rattle.solve_reduce.specs.Reduced.{LooplessForm};
ghost use Rattle.solve_levels.specs.Decisions.{Room};
ghost use Rattle.solve_levels.specs.Levels.{Stack, state};
ghost use Rattle.solve_branch.specs.States.{Stands};
ghost use Rattle.solve_walk.specs.States.{Walkable, Standing};
ghost use Rattle.solve_numbered.specs.Numbered.{Tables};
ghost use Rattle.solve_stretch.specs.Stretch.{Filled, Goes, StretchOf};

use base_nodeset::NodeSet;
use base_tables::trees::Trees;
use graph::LAST;
use solve_levels::{Decision, Level, SMALL, SMALL_STACK, STACK, UNTAKEN};
use solve_numbered::{SMALL_TRAIL, TRAIL, reach, read_off};
use solve_walk::steps::next;

// How many readings are passed, and where the walk is at the next, if one follows.
#[derive(Clone, Copy)]
pub struct Stop {
    pub last: usize,
    pub next: Option<Level>,
}

// The reading at a level where no choice is left, in the n bytes from `at` on.
fn row(states: &[NodeSet], trees: &Trees, opened: usize, out: &mut [u8], at: usize)
    requires { Stack trees.now.n states.now × Bounded trees.now × (at + trees.now.n ≤ length out.old) }
    ensures out_unchanged { drop (at + trees.now.n) out.new ≡ drop (at + trees.now.n) out.old }
    ensures out_after { (g : Graph) → TreesOf g trees.now → LooplessForm g trees.now.n (state trees.now.n (opened % 32) states.now) →
        take (at + trees.now.n) out.new ≡ take at out.old ++ settled g }
{
    read_off(states, trees, opened, &mut out[at..]);
}

// From the reading where the walk stands until none is left or no place for one.
pub fn fill(
    trees: &Trees,
    states: &mut [NodeSet],
    trail: &mut [Decision],
    from: Level,
    passed: usize,
    out: &mut [u8],
) -> Stop
    requires standing { Standing trees.now trail.old states.old from passed × Room trees.now.n trail.old }
    requires last_lt_limit { (passed < limit) × (trees.now.n ≤ length out.old) }
    ensures last_lt_last { (passed < result.last) × (IsSome result.next → result.last < limit) }
    ensures filled { (g : Graph) → Fits g trees.now → Stands g trail.old states.old from passed →
        Filled g passed out.old result.last out.new × Goes g trail.new states.new result }
{
    let n = trees.n;
    let mut at = from;
    let mut last = passed;
    let mut end = 0;
    loop {
        row(states, trees, at.opened, out, end);
        last += 1;
        end += n;
        if last == LAST {
            return Stop { last, next: None };
        }
        let Some(further) = next(trees, states, trail, at) else {
            return Stop { last, next: None };
        };
        at = further;
        if out.len() - end < n {
            return Stop {
                last,
                next: Some(at),
            };
        }
    }
}

// With tables of S sets and T decisions.
fn stretch_in<const S: usize, const T: usize>(
    rows: &[NodeSet],
    trees: &Trees,
    passed: usize,
    out: &mut [u8],
) -> usize
    requires in_bounds { Walkable trees.now rows.now × (passed < limit) × (trees.now.n ≤ length out.old) }
    requires tables { Tables trees.now.n S T }
    ensures { (s : Walkable trees.now rows.now) → StretchOf s.walked.graph passed out.old result out.new }
{
    let mut states = [NodeSet::empty(); S];
    let mut trail = [UNTAKEN; T];
    let Ok(at) = reach(rows, trees, &mut states, &mut trail, passed + 1) else {
        return passed;
    };
    fill(trees, &mut states, &mut trail, at, passed, out).last
}

// The readings after the first `passed`; the number of the last, or `passed` where there is none.
pub fn stretch(rows: &[NodeSet], trees: &Trees, passed: usize, out: &mut [u8]) -> usize
    requires { Walkable trees.now rows.now × (trees.now.n ≤ length out.old) }
    ensures { (s : Walkable trees.now rows.now) → StretchOf s.walked.graph passed out.old result out.new }
{
    if LAST <= passed {
        return passed;
    }
    if trees.n <= SMALL {
        stretch_in::<SMALL_STACK, SMALL_TRAIL>(rows, trees, passed, out)
    } else {
        stretch_in::<STACK, TRAIL>(rows, trees, passed, out)
    }
}
