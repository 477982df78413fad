// Down from a level to its next reading: by untested halves and, where that leads to no reading, back by halves that are tested.
#![tactic(auto)]

ghost use Rattle.std.specs.Prelude.{◌≡◌, true, ◌↔◌, ℕ, ◌*◌, ◌%◌, ◌≤◌, ◌<◌, length};
ghost use Rattle.graph.specs.Graph.{Graph, own};
ghost use Rattle.graph.specs.Placing.{Solvable};
ghost use Rattle.theory_forest.specs.Shape.{Shaped};
ghost use Rattle.base_tables.specs.Trees.{Bounded, TreesOf, Owners, Fits};
ghost use Rattle.solve_below.specs.Below.{Fragments, Under};
ghost use Rattle.solve_test.specs.Tables.{Blank, EndRows};
ghost use Rattle.solve_levels.specs.Decisions.{Noted, Room, Kept};
ghost use Rattle.solve_levels.specs.Levels.{Stack, state};
ghost use Rattle.solve_branch.specs.States.{Dives, Leaves, Diving};
ghost use Rattle.solve_branch.specs.Dives.{EndRow, Opens, Arrives};

use base_nodeset::NodeSet;
use base_tables::trees::Trees;
use solve_below::under;
use solve_branch::dive::{Stuck, back, dive, turn};
use solve_levels::{Decision, LEVELS, Level, slot};
use solve_reduce::reduced::width;
use solve_test::solvable;

// Of a root or a leaf the nodes under it, and nothing of an inner node.
fn end_row(sets: &[NodeSet], fragments: &[NodeSet], trees: &Trees, u: usize) -> NodeSet
    requires { (trees.now.n ≤ length sets.now) × (trees.now.n ≤ length fragments.now) × Bounded trees.now × (u < trees.now.n) }
    ensures { (g : Graph) → Shaped g → TreesOf g trees.now → Fragments trees.now.n (own g) fragments.now → Under g sets.now → EndRow g u result }
{
    if trees.leaves.has(u) {
        return sets[u];
    }
    if trees.roots.has(u) {
        return under(sets, fragments, trees, u);
    }
    NodeSet::empty()
}

fn end_rows(sets: &[NodeSet], fragments: &[NodeSet], trees: &Trees, rows: &mut [NodeSet])
    requires { (trees.now.n ≤ length sets.now) × (trees.now.n ≤ length fragments.now) × Bounded trees.now × Blank rows.old }
    ensures { (g : Graph) → Shaped g → TreesOf g trees.now → Fragments trees.now.n (own g) fragments.now → Under g sets.now →
        EndRows g rows.new }
{
    for u in 0..trees.n {
        rows[u] = end_row(sets, fragments, trees, u);
    }
}

// Whether a level's graph has a solved form.
fn tested(trees: &Trees, states: &[NodeSet], opened: usize) -> bool
    requires { Owners trees.now × Stack trees.now.n states.now }
    ensures { (g : Graph) → Fits g trees.now → Fragments trees.now.n (own g) (state trees.now.n 33 states.now) →
        Under g (state trees.now.n (opened % 32) states.now) → (result ≡ true) ↔ Solvable g }
{
    let wide = width(trees.n);
    let from = slot(trees.n, opened);
    let last = wide * (LEVELS + 1);
    let mut rows = [NodeSet::empty(); 128];
    end_rows(
        &states[from..from + wide],
        &states[last..last + wide],
        trees,
        &mut rows,
    );
    solvable(trees, &rows)
}

// Back from `deep` to the next half below the level `base` that has a solved form.
fn leave(
    trees: &Trees,
    states: &mut [NodeSet],
    trail: &mut [Decision],
    deep: Level,
    base: usize,
) -> Result<Level, Stuck>
    requires { Owners trees.now × Stack trees.now.n states.old × ((i : ℕ) → i < deep.depth → Noted trees.now.n trail.old i) × (base ≤ deep.depth) × (deep.opened ≤ 2 * length trail.old) }
    ensures kept { Kept base trail.old trail.new }
    ensures opens { (g : Graph) (k : ℕ) → Fits g trees.now → Leaves g trail.old states.old deep deep.depth k →
        Opens g trail.new states.new base k result }
{
    let mut here = deep;
    let mut top = deep.depth;
    loop {
        let left = back(trail, top);
        if left <= base {
            return Err(Stuck { at: here });
        }
        top = left - 1;
        here = turn(trees, states, trail, here, top);
        if tested(trees, states, here.opened) {
            return Ok(here);
        }
    }
}

// The next reading below a level, if there is one. Halves are tested only where a dive has led to none, and the first of them that
// has a solved form has a reading below it.
pub fn descend(
    trees: &Trees,
    states: &mut [NodeSet],
    trail: &mut [Decision],
    at: Level,
) -> Result<Level, Stuck>
    requires { Diving trees.now trail.old states.old at × Room trees.now.n trail.old }
    ensures kept { Kept at.depth trail.old trail.new }
    ensures arrives { (g : Graph) (k : ℕ) → Fits g trees.now → Dives g trail.old states.old at k →
        Arrives g trail.new states.new at.depth k result }
{
    let mut here = at;
    loop {
        let base = here.depth;
        match dive(trees, states, trail, here) {
            Ok(reading) => return Ok(reading),
            Err(stuck) => here = leave(trees, states, trail, stuck.at, base)?,
        }
    }
}
