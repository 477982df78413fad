// What the calls answer to a sheet that is refused.
use counter::{
    Place, Unplaced, check_cycle, check_placing, configuration, count, drawing, fragment_table,
    nodes, tidy,
};
use format::Refusal;

// What the lent bytes hold before the calls.
const MARK: u8 = 170;

// The number of the refusal, 0 for none.
fn number<A: Drop>(answer: Result<A, Refusal>) -> u8 {
    match answer {
        Ok(_) => 0,
        Err(why) => u8::from(why),
    }
}

fn placed(answer: Result<(), Unplaced>) -> u8 {
    match answer {
        Ok(()) => 0,
        Err(Unplaced::NoReading(_)) => 9,
        Err(Unplaced::Refused(why)) => u8::from(why),
    }
}

// The numbers that count, nodes, checks, reading, configuration, drawing, tidying and table give, with the place handed back
// after the reading's; then the four bytes that these were lent.
pub fn refused_calls(sheet: &[u8]) -> [u8; 14] {
    let mut out = [MARK; 4];
    let next = Place { number: 1 }.next(sheet, &mut out);
    let configured = placed(configuration(sheet, &mut out));
    let drawn = number(drawing(sheet, 1, &mut out));
    let tidied = number(tidy(sheet, &mut out));
    let tabled = number(fragment_table(sheet, &mut out));
    [
        number(count(sheet)),
        number(nodes(sheet)),
        number(check_cycle(sheet, b"")),
        number(check_placing(sheet, b"")),
        placed(next.answer),
        (next.place.number % 256) as u8,
        configured,
        drawn,
        tidied,
        tabled,
        out[0],
        out[1],
        out[2],
        out[3],
    ]
}
