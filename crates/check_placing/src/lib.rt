// The check of a placing: solved form, configuration, reading.
#![tactic(auto)]

ghost use Rattle.std.specs.Prelude.{ℕ, ◌≤◌, length, take};
ghost use Rattle.graph.specs.Graph as spec;
ghost use Rattle.base_tables.specs.Trees.{Parents};
ghost use Rattle.base_tables.specs.Tables.{Tables};
ghost use Rattle.check_placing.specs.Answered.{Answered};

use crate::guide::reading;
use crate::shape::{is_placing, single, solved};
use base_nodeset::NodeSet;
use base_tables::Graph;
use base_tables::trees::ends;
use solve_closure::placing_rows;

mod guide;
mod shape;

#[derive(Clone, Copy, PartialEq, Eq, Debug, Default)]
pub struct Answers {
    pub solved: bool,
    pub configuration: bool,
    pub reading: bool,
}

// Of the first n bytes. Bytes that aren't a placing get three noes, and so does a placing that is no solved form.
pub fn check(graph: &Graph, placing: &[u8]) -> Answers
    requires { Parents graph.now.n graph.now.parent × (graph.now.n ≤ length placing.now) }
    ensures { (g : spec.Graph) (edges : ℕ) → Tables g graph.now.n graph.now.parent graph.now.heads edges →
        Answered g (take graph.now.n placing.now) result }
{
    let mut trees = ends(&graph.parent, graph.n);
    if !is_placing(placing, &trees) {
        return Answers::default();
    }
    let mut under = [NodeSet::empty(); 128];
    placing_rows(&graph.parent, placing, graph.n, &mut under);
    if !solved(&graph.heads, &under, graph.n) {
        return Answers::default();
    }
    trees.fill_owners(&graph.parent);
    Answers {
        solved: true,
        configuration: single(placing, graph.n),
        reading: reading(graph, &trees, &under, placing),
    }
}
