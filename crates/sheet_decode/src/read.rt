// A whole sheet: what it writes, and the graph that it means; or its refusal.
ghost use Rattle.format.specs.Sheet.{all_commands, outcome_of, outcome};
ghost use Rattle.sheet_commands.specs.Turn.{Blank};
ghost use Rattle.sheet_commands.specs.Run.{filled};
ghost use Rattle.sheet_decode.specs.Read.{ReadsWritten, Reads};

use crate::judge::{judge, judge_labels};
use base_tables::Graph;
use format::{Form, LONGEST, Refusal};
use sheet_commands::run::commands;
use sheet_commands::turn::blank;
use sheet_grow::grow;

// All commands of the sheet, and then what is tested after the last.
fn read_commands(form: Form, sheet: &[u8], graph: &mut Graph) -> Result<(), Refusal>
    requires { Blank graph.old }
    ensures { ReadsWritten (all_commands form sheet.now) (filled result graph.new) }
{
    commands(form, sheet, graph)?;
    judge(graph)?;
    judge_labels(form, sheet, graph)
}

// 12 before every other check.
fn fill(form: Form, sheet: &[u8], graph: &mut Graph) -> Result<(), Refusal>
    requires { Blank graph.old }
    ensures { ReadsWritten (outcome_of form sheet.now) (filled result graph.new) }
{
    if LONGEST < sheet.len() {
        return Err(Refusal::TooLong);
    }
    read_commands(form, sheet, graph)
}

// What the sheet writes, of either form.
pub fn read_written(form: Form, sheet: &[u8]) -> Result<Graph, Refusal>
    ensures { ReadsWritten (outcome_of form sheet.now) result }
{
    let mut graph = blank();
    fill(form, sheet, &mut graph)?;
    Ok(graph)
}

// The graph that the sheet means, of either form: with a leaf below each node without tree edges.
pub fn read_meant(form: Form, sheet: &[u8]) -> Result<Graph, Refusal>
    ensures { Reads (outcome_of form sheet.now) result }
{
    let mut graph = blank();
    fill(form, sheet, &mut graph)?;
    let n = graph.n;
    graph.n = grow(&mut graph.parent, n);
    Ok(graph)
}

pub fn read(sheet: &[u8]) -> Result<Graph, Refusal>
    ensures { Reads (outcome sheet.now) result }
{
    read_meant(Form::Plain, sheet)
}
