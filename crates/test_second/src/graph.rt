// The graph of a sheet, with the fragments numbered by ascending root.
ghost use Rattle.std.specs.Prelude.{◌≤◌};

use crate::set::{FRAGMENTS, Set};
use crate::sheet::{Edge, NODES, Sheet};

#[derive(Clone, Copy)]
pub struct Node {
    pub fragment: Option<usize>,
    // The fragments that its dominance edges lead to.
    pub leads: Set,
}

#[derive(Clone, Copy)]
pub struct Fragment {
    pub root: usize,
    // The fragments that a dominance edge joins with it, and those with a dominance edge into it.
    pub joined: Set,
    pub over: Set,
}

#[derive(Drop)]
pub struct Graph {
    pub n: usize,
    // How many dominance edges and fragments there are.
    pub edges: usize,
    pub number: usize,
    pub nodes: [Node; NODES],
    pub fragments: [Fragment; FRAGMENTS],
    ghost few_nodes: { n ≤ 128 },
}

// From v up to a node without a parent.
fn top(parents: &[Option<usize>], v: usize) -> usize {
    let mut at = v;
    for _step in 0..NODES {
        let Some(Some(above)) = parents.get(at) else {
            return at;
        };
        at = *above;
    }
    at
}

impl Graph {
    pub fn read(bytes: &[u8]) -> Graph {
        let sheet = Sheet::read(bytes);
        let node = Node {
            fragment: None,
            leads: Set::empty(),
        };
        let fragment = Fragment {
            root: NODES,
            joined: Set::empty(),
            over: Set::empty(),
        };
        let mut graph = Graph {
            n: sheet.n,
            edges: sheet.edges().len(),
            number: 0,
            nodes: [node; NODES],
            fragments: [fragment; FRAGMENTS],
        };
        graph.number_fragments(&sheet);
        for edge in sheet.edges() {
            graph.link(*edge);
        }
        graph
    }

    // Each root begins a fragment, and every other node is in that of the root above it.
    fn number_fragments(&mut self, sheet: &Sheet) {
        let mut number = 0;
        for v in 0..sheet.n {
            if sheet.parents[v].is_none() {
                self.nodes[v].fragment = Some(number);
                if number < FRAGMENTS {
                    self.fragments[number].root = v;
                }
                number += 1;
            }
        }
        self.number = number;
        for v in 0..sheet.n {
            self.nodes[v].fragment = self.fragment_of(top(&sheet.parents, v));
        }
    }

    // The fragment of a node. What is no node's number, which only an ill-formed sheet has, counts on into the roots.
    fn fragment_of(&self, v: usize) -> Option<usize> {
        match self.nodes.get(v) {
            Some(node) => node.fragment,
            None => self.fragments.get(v - NODES).map(|f| f.root),
        }
    }

    // The set of all fragments.
    pub fn everything(&self) -> Set {
        (0..self.number).fold(Set::empty(), |all, f| all.with(Set::one(f)))
    }

    fn link(&mut self, edge: Edge) {
        let (Some(f), Some(g)) = (self.fragment_of(edge.leaf), self.fragment_of(edge.root)) else {
            return;
        };
        if f < FRAGMENTS && g < FRAGMENTS && edge.leaf < NODES {
            self.nodes[edge.leaf].leads = self.nodes[edge.leaf].leads.with(Set::one(g));
            self.fragments[g].over = self.fragments[g].over.with(Set::one(f));
            self.fragments[g].joined = self.fragments[g].joined.with(Set::one(f));
            self.fragments[f].joined = self.fragments[f].joined.with(Set::one(g));
        }
    }
}
