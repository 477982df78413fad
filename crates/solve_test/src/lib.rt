// Whether a graph has a solved form, by its trees and the rows of its descent relation: free fragments are taken out of the
// set of all until none is left.
#![tactic(auto)]

mod free;
mod tables;

ghost use Rattle.std.specs.Prelude.{◌≡◌, true, ◌↔◌};
ghost use Rattle.graph.specs.Graph.{Graph};
ghost use Rattle.graph.specs.Placing.{Solvable};
ghost use Rattle.base_tables.specs.Rows.{Long};
ghost use Rattle.base_tables.specs.Trees.{Owners, Fits};
ghost use Rattle.solve_test.specs.Tables.{EndRows};

use base_nodeset::NodeSet;
use base_tables::trees::Trees;
use free::eliminate;
use tables::{leaf_rows, near_rows};

// The answer is that of every graph whose trees and owners these are and whose descent relation the rows have.
pub fn solvable(trees: &Trees, rows: &[NodeSet]) -> bool
    requires { Owners trees.now × Long rows.now }
    ensures { (g : Graph) → Fits g trees.now → EndRows g rows.now → (result ≡ true) ↔ Solvable g }
{
    let roots = trees.roots;
    let leaves = trees.leaves;
    let mut near = [NodeSet::empty(); 128];
    near_rows(rows, roots, &mut near);
    let mut leaf = [NodeSet::empty(); 128];
    leaf_rows(&trees.owner, leaves, &mut leaf);
    eliminate(rows, &near, &leaf, roots)
}
