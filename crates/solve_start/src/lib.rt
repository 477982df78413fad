// What every walk needs of a sheet's graph: the rows of its descent relation, the root of each node, the leaves and the
// roots; or that there is nothing to walk through.
#![tactic(auto)]

ghost use Rattle.std.specs.Prelude.{◌≡◌, Some};
ghost use Rattle.base_tables.specs.Rows.{Long};
ghost use Rattle.base_tables.specs.Tables.{SheetTables};
ghost use Rattle.solve_start.specs.Started.{Started};

use base_nodeset::NodeSet;
use base_tables::Graph;
use base_tables::trees::{Trees, read_trees};
use solve_closure::graph_rows;
use solve_test::solvable;

// Nothing where the graph has no solved form.
pub fn begin(graph: &Graph, rows: &mut [NodeSet]) -> Option<Trees>
    requires { SheetTables graph.now × Long rows.old }
    ensures n_value { (trees : Trees) → result ≡ Some trees → trees.n ≡ graph.now.n }
    ensures started { (s : SheetTables graph.now) → Started s.graph rows.new result }
{
    graph_rows(graph, rows);
    let trees = read_trees(&graph.parent, graph.n);
    if solvable(&trees, rows) {
        Some(trees)
    } else {
        None
    }
}
