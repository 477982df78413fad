// One well-formed sheet through all calls.
use crate::answers::nodes_of;
use crate::refused::{no_reading, short_buffers};
use crate::solved::{all_top, configured, drawings, same_count, same_list, same_verdict};
use test_second::Size;

// The bytes that a list may take, and the readings: each of them costs a walk from the start.
const TABLE: usize = 65536;

const LISTED: usize = 1430;

fn limit(n: usize) -> usize {
    if n < 2 {
        return 0;
    }
    let rows = TABLE / n;
    if rows < LISTED { rows } else { LISTED }
}

#[derive(Clone, Copy)]
pub struct Found {
    pub readings: usize,
    pub right: bool,
}

// The list, against the second solver's.
fn listed(sheet: &[u8], size: Size) -> bool {
    let n = size.nodes;
    let mut table = [0u8; TABLE];
    let rows = test_second::list(sheet, size.readings, &mut table);
    if rows != size.readings {
        return false;
    }
    if !same_list(sheet, n, &table, rows) {
        return false;
    }
    same_verdict(sheet, n, &table, rows)
}

// A sheet that has readings.
fn solvable(sheet: &[u8], size: Size) -> bool {
    let readings = size.readings;
    if !same_count(sheet, readings) {
        return false;
    }
    if !drawings(sheet, readings) {
        return false;
    }
    if !all_top(sheet, size.edges) {
        return false;
    }
    if !configured(sheet, size.nodes) {
        return false;
    }
    if limit(size.nodes) < readings {
        return true;
    }
    listed(sheet, size)
}

// How many readings the second solver finds, 65,536 for more, and whether the answers of the calls are as they must be.
pub fn trial(sheet: &[u8]) -> Found {
    let size = test_second::measure(sheet);
    let n = size.nodes;
    let readings = size.readings;
    if nodes_of(sheet) != n {
        return Found {
            readings,
            right: false,
        };
    }
    if !short_buffers(sheet, n) {
        return Found {
            readings,
            right: false,
        };
    }
    if readings == 0 {
        let right = no_reading(sheet, n);
        return Found { readings, right };
    }
    let right = solvable(sheet, size);
    Found { readings, right }
}
