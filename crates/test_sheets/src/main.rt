// Tidies each sheet of the input, tells its number of nodes and tabulates its fragments; a sheet that is refused goes to every other
// call as well. A sheet comes with its length, two bytes, before it.
#![tactic(auto)]

mod calls;

ghost use Rattle.std.specs.Prelude.{◌≤◌, length};

use base_text::{hex_line, refused_line};
use calls::refused_calls;
use counter::{fragment_table, nodes, tidy};
use format::Refusal;
use std::io;
use std::io::Read;

// No more of the input is read.
const INPUT: u64 = 65536;

fn print_refusal(rt: &impl Print, why: Refusal) -> io::Result<()> {
    let mut out = [0u8; 11];
    let end = refused_line(why, &mut out, 0);
    rt.write_all(&out[..end])
}

fn print_bytes(rt: &impl Print, bytes: &[u8]) -> io::Result<()>
    requires { length bytes.now ≤ 2048 }
{
    let mut out = [0u8; 4097];
    let end = hex_line(bytes, &mut out, 0);
    rt.write_all(&out[..end])
}

fn print_table(rt: &impl Print, sheet: &[u8]) -> io::Result<()> {
    let mut out = [0u8; 192];
    match fragment_table(sheet, &mut out) {
        Err(why) => print_refusal(rt, why),
        Ok(fragments) => {
            if fragments <= 64 {
                rt.write_all(b"table ")?;
                print_bytes(rt, &out[..3 * fragments])?;
            }
            Ok(())
        }
    }
}

fn print_nodes(rt: &impl Print, sheet: &[u8]) -> io::Result<()> {
    match nodes(sheet) {
        Err(why) => print_refusal(rt, why),
        Ok(number) => println!(rt; "nodes {number}"),
    }
}

fn print_fragments(rt: &impl Print, sheet: &[u8]) -> io::Result<()> {
    print_nodes(rt, sheet)?;
    print_table(rt, sheet)
}

fn print_calls(rt: &impl Print, sheet: &[u8]) -> io::Result<()> {
    rt.write_all(b"calls ")?;
    print_bytes(rt, &refused_calls(sheet))
}

fn print_sheet(rt: &impl Print, sheet: &[u8]) -> io::Result<()> {
    let mut out = [0u8; 2048];
    match tidy(sheet, &mut out) {
        Err(why) => {
            print_refusal(rt, why)?;
            print_calls(rt, sheet)
        }
        Ok(bytes) => {
            if bytes <= 2048 {
                rt.write_all(b"tidy ")?;
                print_bytes(rt, &out[..bytes])?;
                print_fragments(rt, sheet)?;
            }
            Ok(())
        }
    }
}

fn print_sheets(rt: &impl Print, input: &[u8]) -> io::Result<()> {
    let mut left = input;
    while let [high, low, rest @ ..] = left {
        let bytes = usize::from(*high) * 256 + usize::from(*low);
        if rest.len() < bytes {
            return Ok(());
        }
        print_sheet(rt, &rest[..bytes])?;
        left = &rest[bytes..];
    }
    Ok(())
}

fn main(rt: HostRuntime) -> io::Result<()> {
    let mut input = Vec::new(rt.alloc());
    rt.stdin().take(INPUT).read_to_end(&mut input)?;
    print_sheets(&rt, &input)
}
