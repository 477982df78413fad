// Takes the well-formed sheets of its input through the public calls, each against the second solver: the cases of documents 01 and
// 02, the chains of Section 9 of document 000, and generated ones. A mismatch is a sheet with an answer that is not what the documents
// and the second solver say.
#![tactic(auto)]

mod answers;
mod lines;
mod refused;
mod solved;
mod trial;

use answers::{byte, fails, is_cycle, plus};
use lines::{case, summary};
use std::io;
use std::io::Read;
use trial::{Found, trial};

// No more of the input is read.
const INPUT: u64 = 65536;

#[derive(Clone, Copy)]
pub struct Sums {
    pub sheets: usize,
    pub refused: usize,
    pub readings: usize,
    pub wrong: usize,
}

// Where the field at a place ends: it has its length, two bytes, before it.
fn end_of(input: &[u8], at: usize) -> usize {
    let bytes = 256 * byte(input, at) as usize + byte(input, plus(at, 1)) as usize;
    plus(plus(at, 2), bytes)
}

// The field at a place; nothing where the input has no room for it.
fn field(input: &[u8], at: usize) -> &[u8] {
    let start = plus(at, 2);
    let end = end_of(input, at);
    if input.len() < end {
        return &input[0..0];
    }
    if end < start {
        return &input[0..0];
    }
    &input[start..end]
}

// The cycle, if there is one, is the sheet's.
fn tried(cycle: &[u8], sheet: &[u8]) -> Found {
    let found = trial(sheet);
    if cycle.len() == 0 {
        return found;
    }
    if is_cycle(sheet, cycle) {
        return found;
    }
    Found {
        readings: found.readings,
        right: false,
    }
}

// A sheet with a name gets lines of its own.
fn one_sheet(
    rt: &impl Print,
    name: &[u8],
    cycle: &[u8],
    sheet: &[u8],
    sums: Sums,
) -> io::Result<Sums> {
    let found = tried(cycle, sheet);
    if name.len() != 0 {
        case(rt, name, sheet, found.readings)?;
    }
    Ok(Sums {
        sheets: plus(sums.sheets, 1),
        refused: plus(sums.refused, fails(found.readings != 0)),
        readings: plus(sums.readings, found.readings),
        wrong: plus(sums.wrong, fails(found.right)),
    })
}

// Three fields a sheet: name, cycle, and the sheet itself.
fn all_sheets(rt: &impl Print, input: &[u8]) -> io::Result<Sums> {
    let mut sums = Sums {
        sheets: 0,
        refused: 0,
        readings: 0,
        wrong: 0,
    };
    let mut at = 0;
    for _sheet in 0..input.len() {
        if input.len() <= at {
            return Ok(sums);
        }
        let second = end_of(input, at);
        let third = end_of(input, second);
        sums = one_sheet(
            rt,
            field(input, at),
            field(input, second),
            field(input, third),
            sums,
        )?;
        at = end_of(input, third);
    }
    Ok(sums)
}

fn main(rt: HostRuntime) -> io::Result<()> {
    let mut input = Vec::new(rt.alloc());
    rt.stdin().take(INPUT).read_to_end(&mut input)?;
    let sums = all_sheets(&rt, &input)?;
    summary(&rt, sums)
}
