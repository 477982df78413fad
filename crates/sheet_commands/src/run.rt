// All commands of a sheet, one after the other.
ghost use Rattle.sheet_commands.specs.Turn.{Blank};
ghost use Rattle.sheet_commands.specs.Run.{filled, Ran};

use crate::command::Command;
use crate::reader::Reader;
use crate::turn::{begin, turn};
use base_tables::Graph;
use format::{Form, Refusal};

// Into a graph that is lent: one handed back would be copied at each step that passes it on, and it has 2 KB.
pub fn commands(form: Form, sheet: &[u8], graph: &mut Graph) -> Result<(), Refusal>
    requires { Blank graph.old }
    ensures { Ran form sheet.now (filled result graph.new) }
{
    let mut reader = Reader { sheet, at: 0, form };
    graph.n = begin(reader.next()?)?;
    loop {
        match reader.next()? {
            Command::End => return Ok(()),
            command => turn(graph, command)?,
        }
    }
}
