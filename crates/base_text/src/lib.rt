// The lines of document 01's "The printed list", and bytes in hexadecimal. Each function writes from `at` on and hands
// back the place after.
#![tactic(auto)]

ghost use Rattle.std.specs.Prelude.{◌≡◌, ◌+◌, ◌≤◌, ◌<◌, ◌++◌, length};
ghost use Rattle.format.specs.Text.{decimal, line, count_line, refused_line};
ghost use Rattle.base_finite.specs.Stores.{Written};
ghost use Rattle.base_text.specs.Lines.{pair, hung_in, line_in, hex_digit, hex_line};

use base_nodeset::NodeSet;
use format::Refusal;
use graph::{Count, LAST, NONE};

// No line of a reading is longer.
pub const LINE: usize = 1100;

fn put(bytes: &[u8], out: &mut [u8], at: usize) -> usize
    requires { at + length bytes.now ≤ length out.old }
    ensures { Written out.old at bytes.now out.new result }
{
    let end = at + bytes.len();
    out[at..end].copy_from_slice(bytes);
    end
}

// A number of at most three digits, forward and with no call: almost all numbers of a reading's line are such.
fn small(k: u16, out: &mut [u8], at: usize) -> usize
    requires { (k < 1000) × (at + length (decimal k) ≤ length out.old) }
    ensures { Written out.old at (decimal k) out.new result }
{
    if k < 10 {
        out[at] = b'0' + k as u8;
        return at + 1;
    }
    if k < 100 {
        out[at] = b'0' + (k / 10) as u8;
        out[at + 1] = b'0' + (k % 10) as u8;
        return at + 2;
    }
    out[at] = b'0' + (k / 100) as u8;
    out[at + 1] = b'0' + (k / 10 % 10) as u8;
    out[at + 2] = b'0' + (k % 10) as u8;
    at + 3
}

// A number, with as many digits as it needs.
pub fn decimal(k: usize, out: &mut [u8], at: usize) -> usize
    requires { at + length (decimal k) ≤ length out.old }
    ensures { Written out.old at (decimal k) out.new result }
{
    if k < 1000 {
        return small(k as u16, out, at);
    }
    let last = decimal(k / 10, out, at);
    out[last] = b'0' + (k % 10) as u8;
    last + 1
}

// A line that ends with a number.
fn number_line(word: &[u8], k: usize, out: &mut [u8], at: usize) -> usize
    requires { at + length (line (word.now ++ decimal k)) ≤ length out.old }
    ensures { Written out.old at (line (word.now ++ decimal k)) out.new result }
{
    let after_word = put(word, out, at);
    let end = decimal(k, out, after_word);
    out[end] = b'\n';
    end + 1
}

pub fn refused_line(why: Refusal, out: &mut [u8], at: usize) -> usize
    requires { at + length (refused_line why) ≤ length out.old }
    ensures { Written out.old at (refused_line why) out.new result }
{
    let number = u8::from(why) as usize;
    number_line(b"refused ", number, out, at)
}

pub fn count_line(count: Count, out: &mut [u8], at: usize) -> usize
    requires { at + length (count_line count) ≤ length out.old }
    ensures { Written out.old at (count_line count) out.new result }
{
    match count {
        Count::Exactly(k) => number_line(b"readings ", k, out, at),
        Count::More => number_line(b"readings more than ", LAST, out, at),
    }
}

// The root r and its leaf, where it is hung under one.
fn hung(leaf: u8, r: usize, out: &mut [u8], at: usize) -> usize
    requires { (r < 128) × (at + length (pair leaf r) ≤ length out.old) }
    ensures { Written out.old at (pair leaf r) out.new result }
{
    if leaf == NONE {
        return at;
    }
    out[at] = b' ';
    let colon = small(r as u16, out, at + 1);
    out[colon] = b':';
    small(leaf as u16, out, colon + 1)
}

// The hung roots below n. Members come out ascending, so the first that is not below n ends it.
fn all_hung(placing: &[u8], n: usize, roots: NodeSet, out: &mut [u8], at: usize) -> usize
    requires { (n ≤ length placing.now) × (at + length (hung_in roots placing.now n) ≤ length out.old) }
    ensures { Written out.old at (hung_in roots placing.now n) out.new result }
{
    let mut end = at;
    let mut left = roots;
    while let Some(r) = left.pop_first() {
        if n <= r {
            return end;
        }
        end = hung(placing[r], r, out, end);
    }
    end
}

// The line of reading k, whose placing is in the first n bytes.
pub fn reading_line(
    placing: &[u8],
    n: usize,
    roots: NodeSet,
    k: usize,
    out: &mut [u8],
    at: usize,
) -> usize
    requires { (n ≤ 128) × (n ≤ length placing.now) × (at + 1100 ≤ length out.old) }
    ensures written { Written out.old at (line_in n roots placing.now k) out.new result }
    ensures upper_bound { result ≤ length out.old }
{
    let after_number = decimal(k, out, at);
    let end = all_hung(placing, n, roots, out, after_number);
    out[end] = b'\n';
    end + 1
}

fn hex_digit(d: u8) -> u8
    requires { d < 16 }
    ensures { result ≡ hex_digit d }
{
    if d < 10 { b'0' + d } else { b'a' - 10 + d }
}

#[tactic(auto, using(crate::proofs::Lines::hex_line_length))]
pub fn hex_line(bytes: &[u8], out: &mut [u8], at: usize) -> usize
    requires { at + length (hex_line bytes.now) ≤ length out.old }
    ensures { Written out.old at (hex_line bytes.now) out.new result }
{
    let mut end = at;
    for &byte in bytes {
        out[end] = hex_digit(byte / 16);
        out[end + 1] = hex_digit(byte % 16);
        end += 2;
    }
    out[end] = b'\n';
    end + 1
}
