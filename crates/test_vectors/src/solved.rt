// A sheet with solved forms: the count, the list, the configuration and drawings. Each function tells whether the answers are as
// they must be.
use crate::answers::{
    MARK, byte, checked, configuration_in, drawn_as, lent, next_in, plus, untouched,
};
use capi_put::{put, put_next, put_placed};
use counter::{Place, configuration, count};

// 65,536 stands for every count that is larger than 65,535.
pub fn same_count(sheet: &[u8], readings: usize) -> bool {
    let mut counted = 0;
    if put(count(sheet), &mut counted) != 0 {
        return false;
    }
    counted == readings as u64
}

fn same_row(table: &[u8], start: usize, placing: &[u8], n: usize) -> bool {
    for v in 0..n {
        if byte(table, plus(start, v)) != byte(placing, v) {
            return false;
        }
    }
    true
}

// The row of n bytes that equals the placing; `rows` where there is none.
fn row_of(table: &[u8], rows: usize, placing: &[u8], n: usize) -> usize {
    let mut start = 0;
    for row in 0..rows {
        if same_row(table, start, placing, n) {
            return row;
        }
        start = plus(start, n);
    }
    rows
}

// Whether the placing is a row that has not been seen; it has now.
fn new_row(table: &[u8], rows: usize, placing: &[u8], n: usize, seen: &mut [u8]) -> bool {
    let row = row_of(table, rows, placing, n);
    if rows <= row {
        return false;
    }
    if byte(seen, row) != 0 {
        return false;
    }
    if let Some(place) = seen.get_mut(row) {
        *place = 1;
    }
    true
}

// The reading after this number: a row of the second solver's that has not come before.
fn same_reading(
    sheet: &[u8],
    n: usize,
    number: usize,
    table: &[u8],
    rows: usize,
    seen: &mut [u8],
) -> bool {
    let mut out = [MARK; 256];
    let next = next_in(sheet, Place { number }, &mut out, lent(n));
    let mut after = 0;
    let mut pairs = 0;
    if put_next(next, &mut after, &mut pairs) != 0 {
        return false;
    }
    if after as usize != plus(number, 1) {
        return false;
    }
    if !untouched(&out, n) {
        return false;
    }
    let answers = checked(sheet, &out);
    if !answers.solved {
        return false;
    }
    if !answers.reading {
        return false;
    }
    new_row(table, rows, &out, n, seen)
}

// Beyond the last reading: the place stays.
fn at_end(sheet: &[u8], number: usize) -> bool {
    let mut out = [MARK; 256];
    let next = Place { number }.next(sheet, &mut out);
    let mut after = 0;
    let mut pairs = 0;
    if put_next(next, &mut after, &mut pairs) != 11 {
        return false;
    }
    if after as usize != number {
        return false;
    }
    untouched(&out, 0)
}

// The list is the second solver's, as a set.
pub fn same_list(sheet: &[u8], n: usize, table: &[u8], rows: usize) -> bool {
    let mut seen = [0u8; 2048];
    for row in 0..rows {
        if !same_reading(sheet, n, row, table, rows, &mut seen) {
            return false;
        }
    }
    at_end(sheet, rows)
}

pub fn configured(sheet: &[u8], n: usize) -> bool {
    let mut out = [MARK; 256];
    let answer = configuration_in(sheet, &mut out, lent(n));
    let mut pairs = 0;
    if put_placed(answer, &mut pairs) != 0 {
        return false;
    }
    if !untouched(&out, n) {
        return false;
    }
    let answers = checked(sheet, &out);
    if !answers.solved {
        return false;
    }
    answers.configuration
}

// The check of a placing calls the configuration a reading just where the second solver lists it.
pub fn same_verdict(sheet: &[u8], n: usize, table: &[u8], rows: usize) -> bool {
    let mut out = [MARK; 256];
    let _ = configuration(sheet, &mut out);
    let listed = row_of(table, rows, &out, n) < rows;
    let answers = checked(sheet, &out);
    answers.reading == listed
}

// With every root on top no dominance edge runs downward.
pub fn all_top(sheet: &[u8], edges: usize) -> bool {
    let out = [255u8; 128];
    let answers = checked(sheet, &out);
    answers.solved == (edges == 0)
}

// Drawings: reading 1 has one, reading 0 and the reading after the last have none.
pub fn drawings(sheet: &[u8], readings: usize) -> bool {
    let mut page = [MARK; 1024];
    if !drawn_as(sheet, 0, &mut page, 11) {
        return false;
    }
    if !drawn_as(sheet, plus(readings, 1), &mut page, 11) {
        return false;
    }
    drawn_as(sheet, 1, &mut page, 0)
}
