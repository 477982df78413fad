// Rule 2: the roots that a leaf's edges go to, those that are redundant left out.
ghost use Rattle.std.specs.Prelude.{◌<◌};
ghost use Rattle.base_tables.specs.Rows.{Long};
ghost use Rattle.solve_reduce.specs.Staying.{Heads};

use base_nodeset::NodeSet;
use base_tables::sets::tops;

// The roots that the edges of the leaf l go to.
pub fn heads(rows: &[NodeSet], roots: NodeSet, l: usize) -> NodeSet
    requires { Long rows.now × (l < 128) }
    ensures { Heads roots rows.now l result }
{
    tops(rows, rows[l].intersection(roots))
}
