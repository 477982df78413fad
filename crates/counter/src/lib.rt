// The calls that are open to callers. Nothing is asked of what is lent: each call tests its own input.
#![tactic(auto)]

ghost use Rattle.std.specs.Prelude.{◌≡◌, ◌*◌, ◌≤◌, length, Err};
ghost use Rattle.base_tables.specs.Tables.{SheetTables};
ghost use Rattle.format.specs.Sheet.{outcome_of, outcome};
ghost use Rattle.format.specs.declared.Form.TheVariants.{Labelled};
ghost use Rattle.sheet_encode.specs.Tidy.{Tidies};
ghost use Rattle.sheet_fragments.specs.Table.{Tabled};
ghost use Rattle.sheet_fragments.specs.Records.{Recorded};
ghost use Rattle.counter.specs.Calls.{CountOf, ReadingOf, StretchOf, ConfigurationOf, DrawingOf, TermOf};
ghost use Rattle.solve_answer.specs.Calls.{refusal_number, placed_number, StretchCall};
ghost use Rattle.counter.specs.Checks.{NodesOf, CycleOf, PlacingOf};
ghost use Rattle.counter.specs.Numbers.{CountNumbered, ReadingNumbered, ConfigurationNumbered, DrawingNumbered, TermNumbered, TidyNumbered, TableNumbered, RecordsNumbered, SheetNumbered, PlacingNumbered};

use base_tables::Graph;
use check_cycle::check;
use check_placing::Answers;
use format::{Form, Refusal};
use graph::{Count, Fragment};
use sheet_decode::read::{read, read_meant};
use sheet_fragments::records::prepare;
pub use solve_answer::Unplaced;
use solve_answer::{Wanted, checked_placing, configuration_of, count_of, drawing_of, readings_of};
use solve_term::term_of;

// The listing's place: the number of the last reading handed out, 0 at the start.
#[derive(Clone, Copy)]
pub struct Place {
    pub number: usize,
}

// A reading call's answer, and the place moved on.
#[derive(Clone, Copy)]
pub struct Next {
    pub answer: Result<(), Unplaced>,
    pub place: Place,
}

// How many readings the sheet has.
pub fn count(sheet: &[u8]) -> Result<Count, Refusal>
    ensures count_of { CountOf (outcome sheet.now) result }
    ensures count_numbered { CountNumbered (outcome sheet.now) (refusal_number result) }
{
    let graph = read(sheet)?;
    count_of(&graph)
}

impl Place {
    pub fn start() -> Place
        ensures { result.number ≡ 0 }
    {
        Place { number: 0 }
    }

    // After a refusal the place is where it was.
    fn refused(self, why: Unplaced) -> Next
        ensures { (result.answer ≡ Err why) × (result.place.number ≡ self.number) }
    {
        Next {
            answer: Err(why),
            place: self,
        }
    }

    // The readings after the place that the first `room` bytes lent have room for.
    fn hand_out(self, graph: &Graph, room: usize, out: &mut [u8]) -> Next
        requires sheet_tables { SheetTables graph.now }
        requires n_le_room { 2 * graph.now.n ≤ length out.old → (graph.now.n ≤ room) × (room ≤ length out.old) }
        ensures { (s : SheetTables graph.now) →
            StretchCall s.graph room self.number out.old result.answer result.place.number out.new }
    {
        let wanted = Wanted {
            passed: self.number,
            room,
        };
        match readings_of(graph, wanted, out) {
            Ok(last) => Next {
                answer: Ok(()),
                place: Place { number: last },
            },
            Err(why) => self.refused(why),
        }
    }

    // The reading after the place, in the first n bytes; or the cycle.
    pub fn next(self, sheet: &[u8], out: &mut [u8]) -> Next
        ensures reading_of { ReadingOf (outcome sheet.now) self.number out.old result.answer result.place.number out.new }
        ensures reading_numbered { ReadingNumbered self.number out.old (outcome sheet.now) (placed_number result.answer) }
    {
        match read(sheet) {
            Ok(graph) => self.hand_out(&graph, graph.n, out),
            Err(why) => self.refused(Unplaced::Refused(why)),
        }
    }

    // The readings after the place, n bytes each, in one walk: as many as are left and as there is room for; or the cycle.
    pub fn fill(self, sheet: &[u8], out: &mut [u8]) -> Next
        ensures stretch_of { StretchOf (outcome sheet.now) self.number out.old result.answer result.place.number out.new }
        ensures reading_numbered { ReadingNumbered self.number out.old (outcome sheet.now) (placed_number result.answer) }
    {
        match read(sheet) {
            Ok(graph) => {
                let room = out.len();
                self.hand_out(&graph, room, out)
            }
            Err(why) => self.refused(Unplaced::Refused(why)),
        }
    }
}

// A configuration, in the first n bytes; or the cycle.
pub fn configuration(sheet: &[u8], out: &mut [u8]) -> Result<(), Unplaced>
    ensures configuration_of { ConfigurationOf (outcome sheet.now) out.old result out.new }
    ensures configuration_numbered { ConfigurationNumbered out.old (outcome sheet.now) (placed_number result) }
{
    let graph = read(sheet)?;
    configuration_of(&graph, out)
}

// The drawing of the reading with this number, from the first lent byte on.
pub fn drawing(sheet: &[u8], number: usize, out: &mut [u8]) -> Result<usize, Refusal>
    ensures drawing_of { DrawingOf (outcome sheet.now) number out.old result out.new }
    ensures drawing_numbered { DrawingNumbered number out.old (outcome sheet.now) (refusal_number result) }
{
    let graph = read(sheet)?;
    drawing_of(&graph, number, out)
}

// The term of the reading with this number, of a labelled sheet, from the first lent byte on.
pub fn term(sheet: &[u8], number: usize, out: &mut [u8]) -> Result<usize, Refusal>
    ensures term_of { TermOf (outcome_of Labelled sheet.now) number out.old result out.new }
    ensures term_numbered { TermNumbered number out.old (outcome_of Labelled sheet.now) (refusal_number result) }
{
    let graph = read_meant(Form::Labelled, sheet)?;
    term_of(sheet, &graph, number, out)
}

// How many nodes the sheet's graph has, added leaves among them: the n of placings and buffers.
pub fn nodes(sheet: &[u8]) -> Result<usize, Refusal>
    ensures nodes_of { NodesOf (outcome sheet.now) result }
    ensures sheet_numbered { SheetNumbered (outcome sheet.now) (refusal_number result) }
{
    let graph = read(sheet)?;
    Ok(graph.n)
}

// The tidy sheet, from the first lent byte on.
pub fn tidy(sheet: &[u8], out: &mut [u8]) -> Result<usize, Refusal>
    ensures tidies { Tidies (outcome sheet.now) result out.old out.new }
    ensures tidy_numbered { TidyNumbered out.old (outcome sheet.now) (refusal_number result) }
{
    sheet_encode::tidy(Form::Plain, sheet, out)
}

// The tidy plain sheet of a labelled one: the dominance graph of its constraint.
pub fn labelled(sheet: &[u8], out: &mut [u8]) -> Result<usize, Refusal>
    ensures tidies { Tidies (outcome_of Labelled sheet.now) result out.old out.new }
    ensures tidy_numbered { TidyNumbered out.old (outcome_of Labelled sheet.now) (refusal_number result) }
{
    sheet_encode::tidy(Form::Labelled, sheet, out)
}

// One record per fragment, three bytes each: root, lowest leaf, number of leaves.
pub fn fragment_table(sheet: &[u8], out: &mut [u8]) -> Result<usize, Refusal>
    ensures tabled { Tabled (outcome sheet.now) result out.old out.new }
    ensures table_numbered { TableNumbered out.old (outcome sheet.now) (refusal_number result) }
{
    sheet_fragments::fragment_table(sheet, out)
}

// The same as records, into a lent slice of them. Later records, and in a refusal all, stay unwritten.
pub fn fragments(sheet: &[u8], table: &mut [Fragment]) -> Result<usize, Refusal>
    ensures recorded { Recorded (outcome sheet.now) result table.old table.new }
    ensures records_numbered { RecordsNumbered table.old (outcome sheet.now) (refusal_number result) }
{
    let records = prepare(sheet, table.len())?;
    table[..records.count].copy_from_slice(records.as_slice());
    Ok(records.count)
}

// Whether the bytes spell a simple hypernormal cycle of the sheet.
pub fn check_cycle(sheet: &[u8], cycle: &[u8]) -> Result<bool, Refusal>
    ensures cycle_of { CycleOf (outcome sheet.now) cycle.now result }
    ensures sheet_numbered { SheetNumbered (outcome sheet.now) (refusal_number result) }
{
    let graph = read(sheet)?;
    Ok(check(&graph, cycle))
}

// Whether the first n bytes are a solved form, a configuration, a reading of the sheet.
pub fn check_placing(sheet: &[u8], placing: &[u8]) -> Result<Answers, Refusal>
    ensures placing_of { PlacingOf (outcome sheet.now) placing.now result }
    ensures placing_numbered { PlacingNumbered placing.now (outcome sheet.now) (refusal_number result) }
{
    let graph = read(sheet)?;
    checked_placing(&graph, placing)
}
