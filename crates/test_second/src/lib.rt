// A second solver, to test the first against. It goes by free fragments from the top down: a connected set of fragments has a
// free fragment on top, and each component of the rest hangs under the one leaf that leads into it. The sheets that it is given
// are well-formed.
#![tactic(auto)]

mod agenda;
mod free;
mod graph;
mod set;
mod sheet;
mod walk;
mod ways;

ghost use Rattle.std.specs.Prelude.{◌+◌, ◌≤◌};

use graph::Graph;
use walk::{Walk, fill};
use ways::{MORE, product};

// How many nodes a sheet has, added leaves counted, how many dominance edges and how many readings. Readings are 0 where there is no
// solved form, and 65,536 where there are more than 65,535.
#[derive(Clone, Copy, PartialEq, Eq, Debug)]
pub struct Size {
    pub nodes: usize,
    pub edges: usize,
    pub readings: usize,
}

fn count(graph: &Graph) -> usize
    ensures { result ≤ 65536 }
{
    if Walk::new().complete(graph, None) {
        product(graph, graph.everything(), graph.number)
    } else {
        0
    }
}

pub fn measure(sheet: &[u8]) -> Size
    ensures { (result.nodes ≤ 128) × (result.readings ≤ 65536) }
{
    let graph = Graph::read(sheet);
    Size {
        nodes: graph.n,
        edges: graph.edges,
        readings: count(&graph),
    }
}

// Writes the readings as rows of n bytes, at most `limit` of them. How many there are, and limit + 1 where there are more.
pub fn list(sheet: &[u8], limit: usize, out: &mut [u8]) -> usize
    ensures { result ≤ limit + 1 }
{
    fill(&Graph::read(sheet), limit.min(MORE), out)
}
