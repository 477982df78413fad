// A search from a node over edges taken either way, breadth first.
ghost use Rattle.std.specs.Prelude.{◌≡◌, ◌&&◌, ℕ, ◌≤◌, ◌<◌, ltb, get_or};
ghost use Rattle.base_nodeset.specs.Set.{mem};
ghost use Rattle.base_tables.specs.Rows.{Long, in_row};
ghost use Rattle.solve_cycle.specs.Searching.{joined_in, Near, Queue, Reached, Visited, Unsearched, Searched};

use base_nodeset::NodeSet;
use base_tables::Graph;
use base_tables::trees::tied;
use graph::NONE;

// How far a search of n nodes has got: the place in the queue that it goes on from, and the number found.
#[derive(Clone, Copy)]
struct Turn {
    n: usize,
    from: usize,
    found: usize,
}

// An edge joins the two.
fn joined(graph: &Graph, u: usize, v: usize) -> bool
    requires { (u < 128) × (v < 128) }
    ensures { result ≡ joined_in graph.now.parent graph.now.heads u v }
{
    tied(&graph.parent, u, v) || graph.heads[u].has(v) || graph.heads[v].has(u)
}

// The nodes that an edge joins to u.
fn near_row(graph: &Graph, u: usize) -> NodeSet
    requires { (graph.now.n ≤ 128) × (u < graph.now.n) }
    ensures { (v : ℕ) → mem result v ≡ (ltb v graph.now.n && joined_in graph.now.parent graph.now.heads u v) }
{
    let mut set = NodeSet::empty();
    for v in 0..graph.n {
        if joined(graph, u, v) {
            set = set.with(v);
        }
    }
    set
}

// Of each node the nodes that an edge joins to it.
pub fn near_rows(graph: &Graph, near: &mut [NodeSet])
    requires { (graph.now.n ≤ 128) × Long near.old }
    ensures { Near graph.now.n (joined_in graph.now.parent graph.now.heads) graph.now.n near.new }
{
    for u in 0..graph.n {
        near[u] = near_row(graph, u);
    }
}

// v, put at the end of the queue if it is near the node at `from` and not found yet. Gives the number found.
fn reach(
    near: &[NodeSet],
    turn: Turn,
    v: usize,
    queue: &mut [u8],
    came: &mut [u8],
    place: &mut [u8],
) -> usize
    requires long { Long near.now × (turn.n ≤ 128) × (turn.from < turn.found) × (v < turn.n) }
    requires queue { Queue turn.n (in_row near.now) queue.old came.old place.old turn.found }
    ensures { Reached turn.n (in_row near.now) (get_or queue.old turn.from 0) v
        queue.old place.old turn.found queue.new came.new place.new result }
{
    let from = turn.from;
    let found = turn.found;
    if place[v] != NONE {
        return found;
    }
    if !near[queue[from] as usize].has(v) {
        return found;
    }
    queue[found] = v as u8;
    came[found] = from as u8;
    place[v] = found as u8;
    found + 1
}

// All nodes that are near the one at `from`, found.
fn visit(near: &[NodeSet], turn: Turn, queue: &mut [u8], came: &mut [u8], place: &mut [u8]) -> usize
    requires long { Long near.now × (turn.n ≤ 128) × (turn.from < turn.found) }
    requires queue { Queue turn.n (in_row near.now) queue.old came.old place.old turn.found }
    ensures { Visited turn.n (in_row near.now) (get_or queue.old turn.from 0) turn.n
        queue.old place.old turn.found queue.new came.new place.new result }
{
    let n = turn.n;
    let from = turn.from;
    let mut found = turn.found;
    for v in 0..n {
        found = reach(near, Turn { n, from, found }, v, queue, came, place);
    }
    found
}

// All nodes that are connected with the root.
pub fn search(
    near: &[NodeSet],
    n: usize,
    root: usize,
    queue: &mut [u8],
    came: &mut [u8],
    place: &mut [u8],
) -> usize
    requires long { Long near.now × (n ≤ 128) × (root < n) }
    requires unsearched { Unsearched queue.old came.old place.old }
    ensures { Searched n (in_row near.now) root result queue.new came.new place.new result }
{
    queue[0] = root as u8;
    place[root] = 0;
    let mut found = 1;
    let mut from = 0;
    while from < found {
        found = visit(near, Turn { n, from, found }, queue, came, place);
        from += 1;
    }
    found
}
