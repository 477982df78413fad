// What the input of a run comes to: a refusal's line, or what the list of its readings begins from.
#![tactic(auto)]

ghost use Rattle.std.specs.Prelude.{suc, ◌≤◌, length, take};
ghost use Rattle.format.specs.Sheet.{longest, outcome};
ghost use Rattle.show_input.specs.Input.{Prepared, ComesTo};

use base_nodeset::NodeSet;
use base_tables::trees::Trees;
use base_text::refused_line;
use format::{LONGEST, Refusal};
use sheet_decode::read::read;
use solve_start::begin;

// A byte more than a sheet may have: so much of an input tells whether it is too long.
pub const INPUT: usize = LONGEST + 1;

// Room for a refusal's line.
pub const REFUSAL: usize = 40;

// The tables that a walk through the readings starts from.
#[derive(Drop)]
pub struct Input {
    pub trees: Trees,
    pub rows: [NodeSet; 128],
}

// What a sheet's list begins from; or why there is none.
fn prepare(sheet: &[u8]) -> Result<Input, Refusal>
    ensures { Prepared result (outcome sheet.now) }
{
    let graph = read(sheet)?;
    let mut rows = [NodeSet::empty(); 128];
    let Some(trees) = begin(&graph, &mut rows) else {
        return Err(Refusal::NoReading);
    };
    Ok(Input { trees, rows })
}

// Of the first `got` bytes of the input; or how many bytes the refusal's line has. The place lent for the input is as long as what tells,
// so that nothing of that is left unread.
pub fn read_input(input: &[u8], got: usize, out: &mut [u8]) -> Result<Input, usize>
    requires { (suc longest ≤ length input.now) × (got ≤ length input.now) × (40 ≤ length out.old) }
    ensures { ComesTo out.old result out.new (outcome (take got input.now)) }
{
    match prepare(&input[..got]) {
        Ok(begun) => Ok(begun),
        Err(why) => Err(refused_line(why, out, 0)),
    }
}
