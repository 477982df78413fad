// The calls on the graph of a well-formed sheet. The refusals come in document 01's order: 10, 9, 11.
#![tactic(auto)]

ghost use Rattle.std.specs.Prelude.{◌≡◌, ◌*◌, ◌≤◌, length};
ghost use Rattle.base_tables.specs.Tables.{SheetTables};
ghost use Rattle.solve_answer.specs.declared.Unplaced.TheVariants.{Refused};
ghost use Rattle.solve_answer.specs.Calls.{Counts, answer_of, place_after, StretchCall, ConfigurationCall, Seeks, DrawingCall, PlacingCall};

use base_nodeset::NodeSet;
use base_tables::Graph;
use check_placing::Answers;
use format::Refusal;
use graph::{Count, LAST};
use show_drawing::draw;
use solve_cycle::witness;
use solve_numbered::{count, find};
use solve_rule1::configure;
use solve_start::begin;
use solve_stretch::stretch;

// The bytes that a drawing is lent at least.
const DRAWING: usize = 1024;

// Why no placing was handed out: no reading exists, and the cycle of so many pairs fills the buffer; or another refusal.
#[derive(Clone, Copy)]
pub enum Unplaced {
    NoReading(usize),
    Refused(Refusal),
}

impl From<Refusal> for Unplaced {
    ghost from_gives = { λ why u. u ≡ Refused why };

    fn from(why: Refusal) -> Unplaced {
        Unplaced::Refused(why)
    }
}

pub fn count_of(graph: &Graph) -> Result<Count, Refusal>
    requires { SheetTables graph.now }
    ensures { (s : SheetTables graph.now) → Counts s.graph result }
{
    let mut rows = [NodeSet::empty(); 128];
    let Some(trees) = begin(graph, &mut rows) else {
        return Err(Refusal::NoReading);
    };
    Ok(count(&rows, &trees))
}

// What a call hands out: the readings after the first `passed`, as many as fit into the first `room` bytes lent.
#[derive(Clone, Copy)]
pub struct Wanted {
    pub passed: usize,
    pub room: usize,
}

// The number of the last reading handed out.
pub fn readings_of(graph: &Graph, wanted: Wanted, out: &mut [u8]) -> Result<usize, Unplaced>
    requires sheet_tables { SheetTables graph.now }
    requires n_le_room { 2 * graph.now.n ≤ length out.old → (graph.now.n ≤ wanted.room) × (wanted.room ≤ length out.old) }
    ensures { (s : SheetTables graph.now) →
        StretchCall s.graph wanted.room wanted.passed out.old (answer_of result) (place_after wanted.passed result) out.new }
{
    if out.len() < 2 * graph.n {
        return Err(Unplaced::Refused(Refusal::SmallBuffer));
    }
    let mut rows = [NodeSet::empty(); 128];
    let Some(trees) = begin(graph, &mut rows) else {
        let pairs = witness(graph, out);
        return Err(Unplaced::NoReading(pairs));
    };
    let passed = wanted.passed;
    let room = wanted.room;
    let last = stretch(&rows, &trees, passed, &mut out[..room]);
    if last == passed {
        return Err(Unplaced::Refused(Refusal::NoSuchReading));
    }
    Ok(last)
}

pub fn configuration_of(graph: &Graph, out: &mut [u8]) -> Result<(), Unplaced>
    requires { SheetTables graph.now }
    ensures { (s : SheetTables graph.now) → ConfigurationCall s.graph out.old result out.new }
{
    let wanted = Wanted {
        passed: 0,
        room: graph.n,
    };
    readings_of(graph, wanted, out)?;
    configure(graph, out);
    Ok(())
}

// The reading with this number, into the first n bytes of a table of its own: what is lent for an answer stays unwritten.
pub fn seek(graph: &Graph, number: usize, placing: &mut [u8; 128]) -> Result<(), Refusal>
    requires { SheetTables graph.now }
    ensures { (s : SheetTables graph.now) → Seeks s.graph number placing.new result }
{
    let mut rows = [NodeSet::empty(); 128];
    let Some(trees) = begin(graph, &mut rows) else {
        return Err(Refusal::NoReading);
    };
    if number == 0 {
        return Err(Refusal::NoSuchReading);
    }
    if LAST < number {
        return Err(Refusal::NoSuchReading);
    }
    if find(&rows, &trees, number, placing) {
        return Ok(());
    }
    Err(Refusal::NoSuchReading)
}

pub fn drawing_of(graph: &Graph, number: usize, out: &mut [u8]) -> Result<usize, Refusal>
    requires { SheetTables graph.now }
    ensures { (s : SheetTables graph.now) → DrawingCall s.graph number out.old result out.new }
{
    if out.len() < DRAWING {
        return Err(Refusal::SmallBuffer);
    }
    let mut placing = [0u8; 128];
    seek(graph, number, &mut placing)?;
    Ok(draw(graph, &placing, out))
}

pub fn checked_placing(graph: &Graph, placing: &[u8]) -> Result<Answers, Refusal>
    requires { SheetTables graph.now }
    ensures { (s : SheetTables graph.now) → PlacingCall s.graph placing.now result }
{
    if placing.len() < graph.n {
        return Err(Refusal::SmallBuffer);
    }
    Ok(check_placing::check(graph, placing))
}
