// The pages of a list: the first has line 1, each further one lines of readings. What decides stands here and in `show_input`, so
// that a program only reads, calls and writes.
#![tactic(auto)]

ghost use Rattle.std.specs.Prelude.{◌≡◌, None, IsSome, ◌||◌, ltb, is_some, ◌≤◌, ◌<◌, min, length};
ghost use Rattle.graph.specs.Graph as graph;
ghost use Rattle.graph.specs.Order.{limit, count_answer};
ghost use Rattle.theory_list.specs.Readings.{listed};
ghost use Rattle.solve_walk.specs.States.{Walkable};
ghost use Rattle.solve_stretch.specs.Stretch.{Filled, Goes};
ghost use Rattle.show_input.specs.Input.{Ready};
ghost use Rattle.show_list.specs.Run.{Underway, Begins, Continues, first_at_hand};

use base_nodeset::NodeSet;
use base_tables::trees::Trees;
use base_text::count_line;
use graph::{Count, LAST};
use show_input::Input;
use show_page::fill_page;
use solve_levels::Decision;
use solve_numbered::count;
use solve_stretch::{Stop, fill};
use solve_walk::steps::first;

// A page, and what the next one goes on from, if another follows.
#[derive(Drop)]
pub struct Page {
    pub bytes: usize,
    // The lines of the first `done` readings are written.
    pub done: usize,
    pub next: Option<Rest>,
}

// What the pages that follow go on from.
#[derive(Drop)]
pub struct Rest {
    // The lines of the first `done` readings are written.
    pub done: usize,
    // The placings at hand are those after the first `passed`, up to where the walk stopped.
    pub passed: usize,
    pub stop: Stop,
    pub trees: Trees,
}

// The count. Where no more follow it is the last number, unless that is the last number there is. Else a walk of its own counts.
fn total(rows: &[NodeSet], trees: &Trees, stop: Stop) -> Count
    requires walkable { Walkable trees.now rows.now }
    requires last_value { (s : Walkable trees.now rows.now) → stop.next ≡ None → stop.last ≡ min (length (listed s.walked.graph)) limit }
    ensures { (s : Walkable trees.now rows.now) → result ≡ count_answer (length (listed s.walked.graph)) }
{
    if stop.last < LAST {
        if stop.next.is_none() {
            return Count::Exactly(stop.last);
        }
    }
    count(rows, trees)
}

// From the first reading on, as many placings as fit.
fn walk(
    rows: &[NodeSet],
    trees: &Trees,
    states: &mut [NodeSet],
    trail: &mut [Decision],
    placings: &mut [u8],
) -> Stop
    requires walkable { Walkable trees.now rows.now }
    requires in_bounds { (4386 ≤ length states.old) × (16384 ≤ length trail.old) × (128 ≤ length placings.old) }
    ensures last_lt_limit { IsSome result.next → result.last < limit }
    ensures filled { (s : Walkable trees.now rows.now) →
        Filled s.walked.graph 0 placings.old result.last placings.new × Goes s.walked.graph trail.new states.new result }
{
    let at = first(rows, trees, states, trail);
    fill(trees, states, trail, at, 0, placings)
}

// The first page: line 1.
pub fn first_page(
    input: Input,
    states: &mut [NodeSet],
    trail: &mut [Decision],
    placings: &mut [u8],
    out: &mut [u8],
) -> Page
    requires ready { (g : graph.Graph) × Ready g input }
    requires in_bounds { (4386 ≤ length states.old) × (16384 ≤ length trail.old) × (128 ≤ length placings.old) × (1100 ≤ length out.old) }
    ensures { (g : graph.Graph) → Ready g input →
        Begins g out.old result states.new trail.new placings.new out.new }
{
    let rows = input.rows;
    let trees = input.trees;
    let stop = walk(&rows, &trees, states, trail, placings);
    let readings = total(&rows, &trees, stop);
    let bytes = count_line(readings, out, 0);
    Page {
        bytes,
        done: 0,
        next: Some(Rest {
            done: 0,
            passed: 0,
            stop,
            trees,
        }),
    }
}

// With placings to print from: those at hand or, where all of them are printed, those that come next.
fn refill(rest: Rest, states: &mut [NodeSet], trail: &mut [Decision], placings: &mut [u8]) -> Rest
    requires underway { (g : graph.Graph) × Underway g rest states.old trail.old placings.old }
    requires in_bounds { (16384 ≤ length trail.old) × (128 ≤ length placings.old) }
    ensures done_lt_last { result.done < result.stop.last }
    ensures kept { (result.passed ≡ first_at_hand rest) × (result.trees ≡ rest.trees) }
    ensures underway_2 { (g : graph.Graph) → Underway g rest states.old trail.old placings.old →
        Underway g result states.new trail.new placings.new × (result.done ≡ rest.done) }
{
    let stop = rest.stop;
    if rest.done < stop.last {
        return rest;
    }
    let trees = rest.trees;
    let at = stop.next.unwrap();
    let further = fill(&trees, states, trail, at, stop.last, placings);
    Rest {
        done: rest.done,
        passed: rest.done,
        stop: further,
        trees,
    }
}

// Whether lines follow that of the number `done`.
fn follows(done: usize, stop: Stop) -> bool
    ensures { result ≡ (is_some stop.next || ltb done stop.last) }
{
    stop.next.is_some() || done < stop.last
}

// The page after the one that goes on so.
pub fn next_page(
    rest: Rest,
    states: &mut [NodeSet],
    trail: &mut [Decision],
    placings: &mut [u8],
    out: &mut [u8],
) -> Page
    requires underway { (g : graph.Graph) × Underway g rest states.old trail.old placings.old }
    requires in_bounds { (16384 ≤ length trail.old) × (128 ≤ length placings.old) × (1100 ≤ length out.old) }
    ensures { (g : graph.Graph) → Underway g rest states.old trail.old placings.old →
        Continues g rest out.old result states.new trail.new placings.new out.new }
{
    let held = refill(rest, states, trail, placings);
    let stop = held.stop;
    let trees = held.trees;
    let lines = fill_page(placings, &trees, held.passed, stop.last, held.done, out);
    let next = if follows(lines.last, stop) {
        Some(Rest {
            done: lines.last,
            passed: held.passed,
            stop,
            trees,
        })
    } else {
        None
    };
    Page {
        bytes: lines.bytes,
        done: lines.last,
        next,
    }
}
