// The descent walk: what lies under a node, by a loop over a list of the nodes still to visit. Rows are filled by it.
#![tactic(auto)]

ghost use Rattle.std.specs.Prelude.{◌≡◌, true, ◌≤◌, ◌<◌, length};
ghost use Rattle.base_nodeset.specs.Set.{mem};
ghost use Rattle.graph.specs.Graph.{Path};
ghost use Rattle.base_tables.specs.Rows.{Long, Rows};
ghost use Rattle.solve_descent.specs.Descent.{Edges, Among, Under, Whole, Walked, ToVisit, OnWay, Longer, Fills};

use base_nodeset::NodeSet;

// The way down from a node: the first `depth` places of a lent table have its nodes, and `seen` those that have been on it.
#[derive(Clone, Copy)]
struct Way {
    depth: usize,
    seen: NodeSet,
}

// The nodes of a row that are put on the list: those that were not found before, and none of a row that is whole.
fn to_visit(row: NodeSet, found: NodeSet, whole: bool) -> NodeSet
    ensures { ToVisit row found whole result }
{
    if whole {
        NodeSet::empty()
    } else {
        row.difference(found)
    }
}

// The nodes under `node`. The row of a node has its successors; that of a member of `whole` has all the nodes under it, so that
// none of these has to be visited. On the list the nodes before `at` have been visited, and the others before `end` are to visit.
pub fn under(rows: &[NodeSet], whole: NodeSet, node: usize, list: &mut [u8]) -> NodeSet
    requires { Long rows.now × Whole rows.now whole × (node < 128) × (length list.old ≡ 128) }
    ensures under { Under rows.now node result }
    ensures walked { Walked result list.old list.new }
{
    // By a union, whose result is known to be two words: the nodes of a row are below 128.
    let mut found = NodeSet::empty().union(rows[node]);
    let mut end = found.list(list, 0);
    let mut at = 0;
    while at < end {
        let next = list[at] as usize;
        let row = rows[next];
        let fresh = to_visit(row, found, whole.has(next));
        end = fresh.list(list, end);
        found = found.union(row);
        at += 1;
    }
    found
}

// On from the last node of the way to a successor that was not seen yet, as long as there is one.
fn down(rows: &[NodeSet], way: &mut [u8], from: Way) -> Way
    requires { Long rows.now × (length way.old ≡ 128) × (0 < from.depth) × OnWay way.old from.depth from.seen }
    ensures { Longer way.old from.depth from.seen way.new result.depth result.seen }
{
    let mut depth = from.depth;
    let mut seen = from.seen;
    while let Some(next) = rows[way[depth - 1] as usize].difference(seen).pop_first() {
        way[depth] = next as u8;
        depth += 1;
        seen = seen.with(next);
    }
    Way { depth, seen }
}

// The row of the node, and on the way there those of nodes under it, filled with all the nodes under each. A node comes after its
// successors, unless a cycle leads back to it: their rows are whole by then. Gives the nodes whose rows are whole.
fn fill_from(rows: &mut [NodeSet], whole: NodeSet, node: usize) -> NodeSet
    requires { Long rows.old × Whole rows.old whole × (node < 128) }
    ensures { Fills rows.old whole rows.new result × (mem result node ≡ true) }
{
    if whole.has(node) {
        return whole;
    }
    let mut list = [0u8; 128];
    let mut way = [0u8; 128];
    way[0] = node as u8;
    let mut depth = 1;
    let mut seen = whole.with(node);
    let mut filled = whole;
    while 0 < depth {
        let end = down(rows, &mut way, Way { depth, seen });
        depth = end.depth - 1;
        seen = end.seen;
        let last = way[depth] as usize;
        let row = under(rows, filled, last, &mut list);
        rows[last] = row;
        filled = filled.with(last);
    }
    filled
}

// The rows of the first n nodes, each filled with all the nodes under its node.
pub fn fill(rows: &mut [NodeSet], n: usize)
    requires { Long rows.old × (n ≤ 128) × Among n rows.old }
    ensures { Rows (Path (Edges rows.old)) rows.new }
{
    let mut whole = NodeSet::empty();
    for node in 0..n {
        whole = fill_from(rows, whole, node);
    }
}
