// The calls lent a part of a buffer, and tests of what they answer and leave there.
ghost use Rattle.std.specs.Prelude.{◌≡◌, ◌≤◌, slice_index_or};

use capi_put::put;
use check_placing::Answers;
use counter::{Next, Place, Unplaced, check_cycle, check_placing, configuration, drawing, nodes};

// What the lent bytes hold before a call.
pub const MARK: u8 = 170;

pub fn fails(right: bool) -> usize {
    if right { 0 } else { 1 }
}

// The byte at a place, and 255 past the end.
pub fn byte(table: &[u8], at: usize) -> u8
    ensures { result ≡ slice_index_or table.now at 255 }
{
    match table.get(at) {
        Some(value) => *value,
        None => 255,
    }
}

pub fn plus(a: usize, b: usize) -> usize {
    std::num::wrapping_add_usize(a, b)
}

// How many nodes the sheet has, added leaves counted; 0 where it is refused.
pub fn nodes_of(sheet: &[u8]) -> usize {
    nodes(sheet).unwrap_or(0)
}

// The bytes lent for a reading of a sheet with n nodes.
pub fn lent(n: usize) -> usize
    ensures { result ≤ 256 }
{
    2 * (n % 129)
}

// The calls, lent the first so many bytes of the buffer.
pub fn next_in(sheet: &[u8], place: Place, out: &mut [u8], bytes: usize) -> Next {
    if out.len() < bytes {
        return place.next(sheet, out);
    }
    place.next(sheet, &mut out[0..bytes])
}

pub fn configuration_in(sheet: &[u8], out: &mut [u8], bytes: usize) -> Result<(), Unplaced> {
    if out.len() < bytes {
        return configuration(sheet, out);
    }
    configuration(sheet, &mut out[0..bytes])
}

// Whether the bytes from `from` on are as they were lent.
pub fn untouched(out: &[u8], from: usize) -> bool {
    for i in from..out.len() {
        if out[i] != MARK {
            return false;
        }
    }
    true
}

// Whether the drawing of the reading wanted has this number, and the bytes past it are as they were lent.
pub fn drawn_as(sheet: &[u8], wanted: usize, out: &mut [u8], number: u8) -> bool {
    let mut bytes = 0;
    if put(drawing(sheet, wanted, out), &mut bytes) != number {
        return false;
    }
    untouched(out, bytes as usize)
}

// The first bytes of the table, which has so many.
pub fn part(table: &[u8], bytes: usize) -> &[u8] {
    if bytes <= table.len() {
        &table[0..bytes]
    } else {
        table
    }
}

pub fn is_cycle(sheet: &[u8], cycle: &[u8]) -> bool {
    check_cycle(sheet, cycle).unwrap_or(false)
}

// What the check says of a placing; three noes where it is refused.
pub fn checked(sheet: &[u8], placing: &[u8]) -> Answers {
    check_placing(sheet, placing).unwrap_or(Answers {
        solved: false,
        configuration: false,
        reading: false,
    })
}
