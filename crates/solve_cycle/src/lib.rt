// A simple hypernormal cycle for a graph without a solved form: its edges are thinned out to a minimal set without one; any
// edge of that set closes a simple path over the others.
#![tactic(auto)]

mod minimal;
mod search;

ghost use Rattle.std.specs.Prelude.{◌≡◌, true, ◌*◌, ◌≤◌, ◌<◌, length, take, drop};
ghost use Rattle.graph.specs.Cycle.{hypernormal_cycle};
ghost use Rattle.solve_cycle.specs.Thinning.{Unsolved};
ghost use Rattle.solve_cycle.specs.Spelling.{kind_in, Back, WayBack, Linked, Ring};

use base_nodeset::NodeSet;
use base_tables::Graph;
use base_tables::trees::{read_trees, tied};
use graph::{DOMINANCE, NONE, TREE};
use minimal::{Edge, first_leaf, minimize, take_out};
use search::{near_rows, search};

fn kind(parent: &[u8], u: usize, v: usize) -> u8
    requires { (length parent.now ≡ 128) × (u < 128) × (v < 128) }
    ensures { result ≡ kind_in parent.now u v }
{
    if tied(parent, u, v) { TREE } else { DOMINANCE }
}

// The way back from a place of the queue to its first, all but the last kind. Gives the number of steps.
fn way_back(parent: &[u8], queue: &[u8], came: &[u8], at: usize, out: &mut [u8]) -> usize
    requires { (length parent.now ≡ 128) × Back queue.now came.now at × (2 * at < length out.old) }
    ensures { WayBack parent.now queue.now came.now at 0 out.old out.new result }
{
    out[0] = queue[at];
    let mut k = at;
    let mut c = 0;
    while 0 < k {
        let next = came[k] as usize;
        let u = queue[k] as usize;
        let v = queue[next];
        out[2 * c + 1] = kind(parent, u, v as usize);
        out[2 * c + 2] = v;
        k = next;
        c += 1;
    }
    c
}

// A way from the edge's leaf to its root, closed by the edge.
fn ring(graph: &Graph, edge: Edge, out: &mut [u8]) -> usize
    requires { Linked graph.now edge.leaf edge.root × (2 * graph.now.n ≤ length out.old) }
    ensures { Ring graph.now edge.leaf edge.root out.old out.new result }
{
    let mut near = [NodeSet::empty(); 128];
    near_rows(graph, &mut near);
    let mut queue = [0u8; 128];
    let mut came = [0u8; 128];
    let mut place = [NONE; 128];
    search(&near, graph.n, edge.root, &mut queue, &mut came, &mut place);
    let l = edge.leaf;
    let at = place[l] as usize;
    let c = way_back(&graph.parent, &queue, &came, at, out);
    out[2 * c + 1] = DOMINANCE;
    c + 1
}

// Writes the cycle as c pairs, node and kind of the edge to the next node, and gives c.
pub fn witness(graph: &Graph, out: &mut [u8]) -> usize
    requires { Unsolved graph.now × (2 * graph.now.n ≤ length out.old) }
    ensures within { 2 * result ≤ 2 * graph.now.n }
    ensures cycle { (s : Unsolved graph.now) → hypernormal_cycle s.graph (take (2 * result) out.new) ≡ true }
    ensures rest { drop (2 * result) out.new ≡ drop (2 * result) out.old }
{
    let trees = read_trees(&graph.parent, graph.n);
    let mut thin = Graph {
        n: graph.n,
        parent: graph.parent,
        heads: graph.heads,
        edges: graph.edges,
    };
    minimize(&mut thin, &trees);
    let leaf = first_leaf(&thin);
    let root = thin.heads[leaf].lowest();
    let edge = Edge { leaf, root };
    take_out(&mut thin, edge);
    ring(&thin, edge, out)
}
