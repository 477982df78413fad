// Tables of sets: one set of nodes for each node.
ghost use Rattle.base_tables.specs.Rows.{Long, in_row, Tops};

use base_nodeset::NodeSet;

// The members of the set that are in no member's row. In closed rows a member that is in a row already read has nothing
// new in its own, and is passed over.
pub fn tops(rows: &[NodeSet], set: NodeSet) -> NodeSet
    requires { Long rows.now }
    ensures { Tops (in_row rows.now) set result }
{
    let mut top = set;
    let mut left = set;
    while let Some(x) = left.pop_first() {
        let under = rows[x];
        top = top.difference(under);
        left = left.difference(under);
    }
    top
}
