// What a labelled sheet says of its nodes, in a table: four bytes a node, its symbol and then its children, in the order of their commands.
#![tactic(auto)]

ghost use Rattle.std.specs.Prelude.{◌≡◌, List, ◌∷◌, ◌<◌, length};
ghost use Rattle.base_nodeset.specs.declared.NodeSet.{NodeSet};
ghost use Rattle.graph.specs.Graph.{Edge};
ghost use Rattle.format.specs.Sheet as spec;
ghost use Rattle.format.specs.declared.Form.TheVariants.{Labelled};
ghost use Rattle.sheet_nodes.specs.Table.{Empty, NodeTable};
ghost use Rattle.sheet_nodes.specs.Hold.{Holding};

use base_nodeset::NodeSet;
use format::Form;
use graph::NONE;
use sheet_commands::command::Command;
use sheet_commands::reader::Reader;

// The symbol s for p, which is labelled from now on.
fn add_label(table: &mut [u8], labelled: NodeSet, p: usize, s: u8) -> NodeSet
    requires { (p < 128) × (length table.old ≡ 512) }
    ensures { (t m : List Edge) → Holding t m table.old labelled → Holding t ((p, s) ∷ m) table.new result }
{
    let more = labelled.with(p);
    table[4 * p] = s;
    more
}

// The child c, at the first of p's three places that is free. A fourth child finds none: no symbol takes it, so that its sheet is refused.
fn add_child(table: &mut [u8], p: usize, c: u8)
    requires { (p < 128) × (c < 128) × (length table.old ≡ 512) }
    ensures { (t m : List Edge) (l : NodeSet) → Holding t m table.old l → Holding ((p, c) ∷ t) m table.new l }
{
    let first = 4 * p + 1;
    for i in 0..3 {
        let place = first + i;
        if table[place] == NONE {
            table[place] = c;
            return;
        }
    }
}

// Which nodes are labelled; their symbols and children go into the table. The commands are judged elsewhere: one that is refused, or whose
// nodes the table has no room for, only ends this.
pub fn node_table(sheet: &[u8], table: &mut [u8]) -> NodeSet
    requires { Empty table.old }
    ensures { (s : spec.Content) → spec.outcome_of Labelled sheet.now ≡ spec.accepted s → NodeTable s table.new result }
{
    let mut labelled = NodeSet::empty();
    // Past the first command.
    let mut reader = Reader {
        sheet,
        at: 2,
        form: Form::Labelled,
    };
    while let Ok(command) = reader.next() {
        match command {
            Command::Tree(p, c) => {
                if 128 <= p || 128 <= c {
                    break;
                }
                add_child(table, p as usize, c);
            }
            Command::Label(v, s) => {
                if 128 <= v {
                    break;
                }
                labelled = add_label(table, labelled, v as usize, s);
            }
            Command::Dominance(_, _) | Command::Differ => {}
            Command::Nodes(_) | Command::End => break,
        }
    }
    labelled
}
