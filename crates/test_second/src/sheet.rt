// A well-formed sheet, taken apart and grown.
ghost use Rattle.std.specs.Prelude.{◌≤◌};

// No sheet has more bytes, nodes or dominance edges.
const SHEET: usize = 2048;

pub const NODES: usize = 128;

const EDGES: usize = 255;

// Where the edges stand, three bytes each.
const FIRST: usize = 2;

// The kind of a tree edge. Higher kinds are dominance edges, and lower ones end the edges.
const TREE: u8 = 2;

// The byte that names no node, and that is read past the end.
const NONE: u8 = 255;

// A dominance edge.
#[derive(Clone, Copy, PartialEq, Eq)]
pub struct Edge {
    pub leaf: usize,
    pub root: usize,
}

#[derive(Drop)]
pub struct Sheet {
    // How many nodes there are, added leaves counted.
    pub n: usize,
    pub parents: [Option<usize>; NODES],
    edges: [Edge; EDGES],
    number: usize,
    ghost few_nodes: { n ≤ 128 },
    ghost few_edges: { number ≤ 255 },
}

impl Sheet {
    pub fn read(sheet: &[u8]) -> Sheet {
        let written = sheet.get(1).copied().unwrap_or(NONE);
        let mut read = Sheet {
            n: usize::from(written) % (NODES + 1),
            parents: [None; NODES],
            edges: [Edge { leaf: 0, root: 0 }; EDGES],
            number: 0,
        };
        if let Some(commands) = sheet.get(FIRST..sheet.len().min(SHEET)) {
            read.unpack(commands);
        }
        read.grow();
        read
    }

    // The dominance edges, each once.
    pub fn edges(&self) -> &[Edge] {
        &self.edges[..self.number]
    }

    fn unpack(&mut self, commands: &[u8]) {
        for command in commands.chunks_exact(3) {
            let &[kind, from, to] = command else {
                return;
            };
            if kind < TREE {
                return;
            }
            if kind == TREE {
                self.add_child(from, usize::from(to));
            } else {
                self.add_edge(Edge {
                    leaf: usize::from(from),
                    root: usize::from(to),
                });
            }
        }
    }

    fn add_child(&mut self, from: u8, to: usize) {
        if let Some(parent) = self.parents.get_mut(to) {
            *parent = (from != NONE).then_some(usize::from(from));
        }
    }

    fn add_edge(&mut self, edge: Edge) {
        if self.number < EDGES && !self.edges().contains(&edge) {
            self.edges[self.number] = edge;
            self.number += 1;
        }
    }

    // Whether v is the parent of one of the first `written` nodes.
    fn has_child(&self, v: usize, written: usize) -> bool {
        self.parents
            .iter()
            .take(written)
            .any(|above| *above == Some(v))
    }

    // Adds the leaves of the nodes without tree edges, numbered upward by ascending node.
    fn grow(&mut self) {
        let written = self.n;
        for v in 0..written {
            let bare = self.parents[v].is_none() && !self.has_child(v, written);
            if bare && self.n < NODES {
                self.parents[self.n] = Some(v);
                self.n += 1;
            }
        }
    }
}
