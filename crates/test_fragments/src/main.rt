// Lends records to `counter::fragments`, and the bytes of as many to `counter::fragment_table`, and compares what they store. A
// sheet of the input comes with its length, two bytes, before it. It is lent 64 records, just enough, and one too few.
#![tactic(auto)]

ghost use Rattle.std.specs.Prelude.{IfOk, ◌≡◌, ◌≤◌, length, take, drop};
ghost use Rattle.format.specs.Sheet.{outcome};
ghost use Rattle.sheet_fragments.specs.Records.{Recorded};

use base_text::{hex_line, refused_line};
use counter::{fragment_table, fragments};
use format::Refusal;
use graph::Fragment;
use std::io;
use std::io::Read;

// No more of the input is read.
const INPUT: u64 = 65536;

// The answer, and all of the table afterwards.
#[derive(Clone, Copy)]
struct Lent {
    answer: Result<usize, Refusal>,
    table: [Fragment; 64],
}

// Lends the first records of the table, and no others.
fn lend(sheet: &[u8], table: [Fragment; 64], room: usize) -> Lent
    requires { room ≤ 64 }
    ensures { Recorded (outcome sheet.now) result.answer (take room table) (take room result.table) × (drop room result.table ≡ drop room table) }
{
    let mut records = table;
    let answer = fragments(sheet, &mut records[..room]);
    Lent {
        answer,
        table: records,
    }
}

// No record of a sheet: a node has a number below 128.
fn unwritten() -> Fragment {
    Fragment {
        root: 255,
        lowest_leaf: 254,
        leaves: 253,
    }
}

// The records as bytes, three each.
fn bytes_of(table: [Fragment; 64]) -> [u8; 192] {
    let mut bytes = [0u8; 192];
    for (three, record) in bytes.chunks_exact_mut(3).zip(&table) {
        three.copy_from_slice(&[record.root, record.lowest_leaf, record.leaves]);
    }
    bytes
}

fn print_refusal(rt: &impl Print, why: Refusal) -> io::Result<()> {
    let mut out = [0u8; 11];
    let end = refused_line(why, &mut out, 0);
    rt.write_all(&out[..end])
}

fn print_bytes(rt: &impl Print, bytes: &[u8]) -> io::Result<()>
    requires { length bytes.now ≤ 192 }
{
    let mut out = [0u8; 385];
    let end = hex_line(bytes, &mut out, 0);
    rt.write_all(&out[..end])
}

fn print_answer(rt: &impl Print, answer: Result<usize, Refusal>, records: &[u8]) -> io::Result<()>
    requires { length records.now ≤ 192 }
{
    match answer {
        Err(why) => print_refusal(rt, why),
        Ok(_) => {
            rt.write_all(b"records ")?;
            print_bytes(rt, records)
        }
    }
}

// Prints the records that were stored, if they are the bytes that were stored, and no other was written. How many they are.
fn print_table(rt: &impl Print, sheet: &[u8], room: usize) -> io::Result<usize>
    requires { room ≤ 64 }
    ensures { IfOk result (λ fragments. fragments ≤ 64) }
{
    let table = [unwritten(); 64];
    let lent = lend(sheet, table, room);
    let answer = lent.answer;
    let after = lent.table;
    let records = bytes_of(after);
    let before = bytes_of(table);
    let mut bytes = bytes_of(table);
    let other = fragment_table(sheet, &mut bytes[..3 * room]);
    let fragments = answer.unwrap_or(0);
    if fragments <= 64 {
        if answer == other
            && records == bytes
            && records[3 * fragments..] == before[3 * fragments..]
        {
            print_answer(rt, answer, &records[..3 * fragments])?;
            return Ok(fragments);
        }
    }
    rt.write_all(b"differs\n")?;
    Ok(0)
}

fn print_sheet(rt: &impl Print, sheet: &[u8]) -> io::Result<()> {
    let fragments = print_table(rt, sheet, 64)?;
    print_table(rt, sheet, fragments)?;
    if 0 < fragments {
        print_table(rt, sheet, fragments - 1)?;
    }
    Ok(())
}

fn print_sheets(rt: &impl Print, input: &[u8]) -> io::Result<()> {
    let mut left = input;
    while let [high, low, rest @ ..] = left {
        let bytes = usize::from(*high) * 256 + usize::from(*low);
        if rest.len() < bytes {
            return Ok(());
        }
        print_sheet(rt, &rest[..bytes])?;
        left = &rest[bytes..];
    }
    Ok(())
}

fn main(rt: HostRuntime) -> io::Result<()> {
    let mut input = Vec::new(rt.alloc());
    rt.stdin().take(INPUT).read_to_end(&mut input)?;
    print_sheets(&rt, &input)
}
