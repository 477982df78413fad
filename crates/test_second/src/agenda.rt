// The components that are still to be hung, the one that is taken next last.
ghost use Rattle.std.specs.Prelude.{◌≤◌};

use crate::graph::Graph;
use crate::set::{FRAGMENTS, Set};

// A component, and the leaf that leads into it, or the top.
#[derive(Clone, Copy)]
pub struct Entry {
    pub part: Set,
    pub leaf: Option<usize>,
}

#[derive(Drop)]
pub struct Agenda {
    entries: [Entry; FRAGMENTS],
    number: usize,
    ghost few: { number ≤ 64 },
}

impl Agenda {
    pub fn new() -> Agenda {
        let entry = Entry {
            part: Set::empty(),
            leaf: None,
        };
        Agenda {
            entries: [entry; FRAGMENTS],
            number: 0,
        }
    }

    pub fn pop(&mut self) -> Option<Entry> {
        if self.number == 0 {
            return None;
        }
        self.number -= 1;
        Some(self.entries[self.number])
    }

    // Adds the components of the set, each under the leaf of f that leads into it, or on top where there is none.
    pub fn add(&mut self, graph: &Graph, set: Set, f: Option<usize>) {
        let mut rest = set;
        for at in self.number..FRAGMENTS {
            let Some(part) = graph.split(&mut rest) else {
                return;
            };
            let leaf = f.and_then(|f| graph.hook(f, part));
            self.entries[at] = Entry { part, leaf };
            self.number = at + 1;
        }
    }
}
