// A minimal set of edges without a solved form: each edge is taken out, and put back if the rest has one. A graph's number of edges
// is left as it was.
ghost use Rattle.std.specs.Prelude.{◌≡◌, Bool, true, ◌↔◌, ℕ, ◌+◌, ◌≤◌, ◌<◌};
ghost use Rattle.base_finite.specs.Below.{any, least};
ghost use Rattle.graph.specs.Graph as spec;
ghost use Rattle.graph.specs.Placing.{Solvable};
ghost use Rattle.base_tables.specs.Rows.{in_row};
ghost use Rattle.base_tables.specs.Tables.{Tables};
ghost use Rattle.solve_cycle.specs.Thinning.{Unsolved, Known, SameTrees, TakenOut, Thinned, and_edge, before};

use base_nodeset::NodeSet;
use base_tables::Graph;
use base_tables::trees::Trees;
use solve_closure::graph_rows;
use solve_test::solvable;

// A dominance edge.
#[derive(Clone, Copy)]
pub struct Edge {
    pub leaf: usize,
    pub root: usize,
}

// Whether the graph has a solved form.
fn has_form(graph: &Graph, trees: &Trees) -> bool
    requires { Known graph.now trees.now }
    ensures { (g : spec.Graph) (edges : ℕ) → Tables g graph.now.n graph.now.parent graph.now.heads edges →
        (result ≡ true) ↔ Solvable g }
{
    let mut rows = [NodeSet::empty(); 128];
    graph_rows(graph, &mut rows);
    solvable(trees, &rows)
}

// The edge, taken out.
pub fn take_out(graph: &mut Graph, edge: Edge)
    requires { (edge.leaf < 128) × (edge.root < 128) }
    ensures { TakenOut edge.leaf edge.root graph.old graph.new }
{
    graph.heads[edge.leaf] = graph.heads[edge.leaf].without(edge.root);
}

// The edge goes, unless the rest has a solved form.
fn settle(graph: &mut Graph, trees: &Trees, edge: Edge)
    requires { Known graph.old trees.now × (edge.leaf < 128) × (edge.root < 128) }
    ensures same { SameTrees graph.old graph.new }
    ensures thinned { (g : spec.Graph) (settled : ℕ → ℕ → Bool) → Thinned g graph.old settled →
        Thinned g graph.new (and_edge settled edge.leaf edge.root) }
{
    let row = graph.heads[edge.leaf];
    take_out(graph, edge);
    if has_form(graph, trees) {
        graph.heads[edge.leaf] = row;
    }
}

// Each edge from l, settled.
fn settle_row(graph: &mut Graph, trees: &Trees, l: usize)
    requires { Known graph.old trees.now × (l < 128) }
    ensures same { SameTrees graph.old graph.new }
    ensures thinned { (g : spec.Graph) → Thinned g graph.old (before l) → Thinned g graph.new (before (l + 1)) }
{
    let mut left = graph.heads[l];
    while let Some(r) = left.pop_first() {
        settle(graph, trees, Edge { leaf: l, root: r });
    }
}

// Each edge, settled: those that are left are a minimal set.
pub fn minimize(graph: &mut Graph, trees: &Trees)
    requires { Known graph.old trees.now }
    ensures same { SameTrees graph.old graph.new }
    ensures thinned { (s : Unsolved graph.old) → Thinned s.graph graph.new (before graph.new.n) }
{
    for l in 0..trees.n {
        settle_row(graph, trees, l);
    }
}

// The lowest leaf with an edge, and the number of nodes where there is none.
pub fn first_leaf(graph: &Graph) -> usize
    requires { graph.now.n ≤ 128 }
    ensures { result ≡ least graph.now.n (λ l. any 128 (in_row graph.now.heads l)) }
{
    for l in 0..graph.n {
        if !graph.heads[l].is_empty() {
            return l;
        }
    }
    graph.n
}
