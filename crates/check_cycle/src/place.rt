// The bytes of a cycle, place by place: "node, then the kind of edge to the next node".
#![tactic(auto, unfolding(graph::specs::Cycle::pairs))]

ghost use Rattle.std.specs.Prelude.{◌≡◌, ◌<◌};
ghost use Rattle.graph.specs.Cycle.{pairs, node, kind, next};
ghost use Rattle.check_cycle.specs.Check.{NodesBelow};

// The edge at a place, to the node after the one there. The kind may be any byte.
#[derive(Clone, Copy)]
pub struct Edge {
    pub kind: u8,
    pub node: usize,
    pub next: usize,
    ghost node_below: { node < 128 },
    ghost next_below: { next < 128 },
}

pub fn node_at(cycle: &[u8], i: usize) -> usize
    requires { i < pairs cycle.now }
    ensures { result ≡ node cycle.now i }
{
    usize::from(cycle[2 * i])
}

pub fn kind_at(cycle: &[u8], i: usize) -> u8
    requires { i < pairs cycle.now }
    ensures { result ≡ kind cycle.now i }
{
    cycle[2 * i + 1]
}

// The node after the one at i, which after the last is the first.
fn next_at(cycle: &[u8], i: usize) -> usize
    requires { i < pairs cycle.now }
    ensures { result ≡ next cycle.now i }
{
    let after = if i + 1 < cycle.len() / 2 { i + 1 } else { 0 };
    node_at(cycle, after)
}

pub fn edge_at(cycle: &[u8], i: usize) -> Edge
    requires { (i < pairs cycle.now) × NodesBelow 128 cycle.now }
    ensures kind { result.kind ≡ kind cycle.now i }
    ensures node { result.node ≡ node cycle.now i }
    ensures next { result.next ≡ next cycle.now i }
{
    Edge {
        kind: kind_at(cycle, i),
        node: node_at(cycle, i),
        next: next_at(cycle, i),
    }
}
