// The readings one by one. A reading is made by a choice for each step: the step takes the last component of an agenda, and the
// choice is the free fragment that stands on top of it. The next reading differs at the last step that has another choice.
ghost use Rattle.std.specs.Prelude.{◌+◌, ◌≤◌};

use crate::agenda::Agenda;
use crate::graph::Graph;
use crate::set::{FRAGMENTS, Set};
use crate::sheet::NODES;

// What a reading has for a root on top.
const TOP: u8 = 255;

// The fragment chosen at a step, and the next one there that could be.
#[derive(Clone, Copy)]
struct Step {
    choice: Option<usize>,
    other: Option<usize>,
}

#[derive(Drop)]
pub struct Walk {
    steps: [Step; FRAGMENTS],
    placing: [u8; NODES],
}

impl Walk {
    pub fn new() -> Walk {
        let step = Step {
            choice: None,
            other: None,
        };
        Walk {
            steps: [step; FRAGMENTS],
            placing: [TOP; NODES],
        }
    }

    // Goes through all steps of a reading, up to the step `last` by the choices given; false where some component has no free fragment.
    pub fn complete(&mut self, graph: &Graph, last: Option<usize>) -> bool {
        let mut agenda = Agenda::new();
        agenda.add(graph, graph.everything(), None);
        for step in 0..graph.number {
            let Some(entry) = agenda.pop() else {
                return false;
            };
            let Some(f) = self.choose(graph, entry.part, step, last) else {
                return false;
            };
            self.hang(graph, f, entry.leaf);
            agenda.add(graph, entry.part.without(Set::one(f)), Some(f));
        }
        true
    }

    // The choice at a step. Where it can have changed, the next one is looked for too.
    fn choose(
        &mut self,
        graph: &Graph,
        set: Set,
        step: usize,
        last: Option<usize>,
    ) -> Option<usize> {
        let given = self.steps.get(step).and_then(|at| at.choice);
        if Some(step) < last {
            return given;
        }
        let choice = if Some(step) == last {
            given
        } else {
            graph.next_free(set, None)
        };
        if let Some(at) = self.steps.get_mut(step) {
            let other = choice.and_then(|f| graph.next_free(set, Some(f)));
            *at = Step { choice, other };
        }
        choice
    }

    fn hang(&mut self, graph: &Graph, f: usize, leaf: Option<usize>) {
        let Some(fragment) = graph.fragments.get(f) else {
            return;
        };
        if let Some(place) = self.placing.get_mut(fragment.root) {
            *place = leaf.and_then(|v| u8::try_from(v).ok()).unwrap_or(TOP);
        }
    }

    // Turns to the next choice at the last step that has one, and tells that step.
    pub fn turn(&mut self, graph: &Graph) -> Option<usize> {
        let last = self
            .steps
            .iter()
            .take(graph.number)
            .rposition(|step| step.other.is_some())?;
        self.steps[last].choice = self.steps[last].other;
        Some(last)
    }

    // Writes the reading of n nodes, as far as there is room.
    pub fn store(&self, n: usize, row: &mut [u8]) {
        for (to, leaf) in row.iter_mut().zip(self.placing.iter().take(n)) {
            *to = *leaf;
        }
    }
}

// All readings, up to the limit, and one more where there are more.
pub fn fill(graph: &Graph, limit: usize, out: &mut [u8]) -> usize
    requires { limit ≤ 65536 }
    ensures { result ≤ limit + 1 }
{
    let mut walk = Walk::new();
    if !walk.complete(graph, None) {
        return 0;
    }
    for found in 0..limit {
        if let Some(row) = out.get_mut(found * graph.n..) {
            walk.store(graph.n, row);
        }
        let Some(last) = walk.turn(graph) else {
            return found + 1;
        };
        walk.complete(graph, Some(last));
    }
    limit + 1
}
