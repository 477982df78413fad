// A reading of a labelled sheet as a term: 10, 9, 11, or its text.
#![tactic(auto)]

ghost use Rattle.solve_answer.specs.Calls.{TermCall};
ghost use Rattle.solve_term.specs.Meant.{Meant};

use base_tables::Graph;
use format::Refusal;
use graph::NONE;
use sheet_nodes::node_table;
use show_term::write;
use solve_answer::seek;

// The bytes that a term is lent at least.
const TERM: usize = 2048;

pub fn term_of(sheet: &[u8], graph: &Graph, number: usize, out: &mut [u8]) -> Result<usize, Refusal>
    requires { Meant sheet.now graph.now }
    ensures { (s : Meant sheet.now graph.now) → TermCall s.content number out.old result out.new }
{
    if out.len() < TERM {
        return Err(Refusal::SmallBuffer);
    }
    let mut placing = [0u8; 128];
    seek(graph, number, &mut placing)?;
    let mut table = [NONE; 512];
    let labelled = node_table(sheet, &mut table);
    Ok(write(graph, &placing, &table, labelled, out))
}
