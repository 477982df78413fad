// Refusals: 10, and 9 with its cycle. Each function tells whether the answers are as they must be.
use crate::answers::{MARK, configuration_in, drawn_as, is_cycle, lent, next_in, part, untouched};
use capi_put::{put, put_next, put_placed};
use counter::{Place, check_placing, count};

// So many bytes are too few for a reading and for a configuration. The place is still the start.
fn too_few(sheet: &[u8], out: &mut [u8], bytes: usize) -> bool {
    let next = next_in(sheet, Place::start(), out, bytes);
    let mut after = 1;
    let mut pairs = 0;
    if put_next(next, &mut after, &mut pairs) != 10 {
        return false;
    }
    if after != 0 {
        return false;
    }
    put_placed(configuration_in(sheet, out, bytes), &mut pairs) == 10
}

// Of a well-formed sheet: a buffer one byte short is refused, whatever the sheet, and stays as it is.
pub fn short_buffers(sheet: &[u8], n: usize) -> bool {
    let bytes = lent(n);
    if bytes == 0 {
        return false;
    }
    let mut out = [MARK; 256];
    if !too_few(sheet, &mut out, bytes - 1) {
        return false;
    }
    if !untouched(&out, 0) {
        return false;
    }
    let mut page = [MARK; 1023];
    if !drawn_as(sheet, 1, &mut page, 10) {
        return false;
    }
    let mut none = 0;
    put(check_placing(sheet, b""), &mut none) == 10
}

// Whether the first c pairs are a simple hypernormal cycle of the sheet and the rest is as it was.
fn cycle_written(sheet: &[u8], out: &[u8], c: usize) -> bool {
    if 128 < c {
        return false;
    }
    if untouched(out, 2 * c) {
        is_cycle(sheet, part(out, 2 * c))
    } else {
        false
    }
}

fn no_next(sheet: &[u8], n: usize) -> bool {
    let mut out = [MARK; 256];
    let next = next_in(sheet, Place::start(), &mut out, lent(n));
    let mut after = 1;
    let mut pairs = 0;
    if put_next(next, &mut after, &mut pairs) != 9 {
        return false;
    }
    if after != 0 {
        return false;
    }
    cycle_written(sheet, &out, pairs as usize)
}

fn no_configuration(sheet: &[u8], n: usize) -> bool {
    let mut out = [MARK; 256];
    let answer = configuration_in(sheet, &mut out, lent(n));
    let mut pairs = 0;
    if put_placed(answer, &mut pairs) != 9 {
        return false;
    }
    cycle_written(sheet, &out, pairs as usize)
}

// A sheet with no solved form.
pub fn no_reading(sheet: &[u8], n: usize) -> bool {
    let mut none = 0;
    if put(count(sheet), &mut none) != 9 {
        return false;
    }
    if !no_next(sheet, n) {
        return false;
    }
    if !no_configuration(sheet, n) {
        return false;
    }
    let mut page = [MARK; 1024];
    if !drawn_as(sheet, 1, &mut page, 9) {
        return false;
    }
    drawn_as(sheet, 0, &mut page, 9)
}
