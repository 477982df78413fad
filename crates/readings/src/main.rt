// Prints the list of the readings of the sheet on standard input, as document 01's "The printed list" has it. What decides stands
// in `show_input` and `show_list`: this reads, calls and writes.
#![tactic(auto)]

ghost use Rattle.std.specs.Prelude.{IfOk, ◌≤◌, length};
ghost use Rattle.graph.specs.Graph as graph;
ghost use Rattle.show_input.specs.Input.{Ready};

use base_nodeset::NodeSet;
use show_input::{INPUT, Input, REFUSAL, read_input};
use show_list::{first_page, next_page};
use solve_levels::{STACK, UNTAKEN};
use solve_numbered::TRAIL;
use std::io;
use std::io::Read;

// A list whose placings fit is walked through once.
const PLACINGS: usize = 262144;

// Lines are written so many bytes at a time.
const PAGE: usize = 65536;

// Reads until the place is full or the input ends, and tells how many bytes came.
fn read_full(input: &mut impl Read, place: &mut [u8]) -> io::Result<usize>
    ensures { IfOk result (λ got. got ≤ length place.new) }
{
    let mut got = 0;
    while got < place.len() {
        let more = input.read(&mut place[got..])?;
        if more == 0 {
            return Ok(got);
        }
        got += more;
    }
    Ok(got)
}

// The tables of a list are cleared here, and so for no refusal.
fn list(rt: &impl Print, input: Input) -> io::Result<()>
    requires { (g : graph.Graph) × Ready g input }
{
    let mut states = [NodeSet::empty(); STACK];
    let mut trail = [UNTAKEN; TRAIL];
    let mut placings = [0u8; PLACINGS];
    let mut out = [0u8; PAGE];
    let mut page = first_page(input, &mut states, &mut trail, &mut placings, &mut out);
    rt.write_all(&out[..page.bytes])?;
    while let Some(rest) = page.next {
        page = next_page(rest, &mut states, &mut trail, &mut placings, &mut out);
        rt.write_all(&out[..page.bytes])?;
    }
    Ok(())
}

fn main(rt: HostRuntime) -> io::Result<()> {
    let mut bytes = [0u8; INPUT];
    let got = read_full(&mut rt.stdin(), &mut bytes)?;
    let mut line = [0u8; REFUSAL];
    match read_input(&bytes, got, &mut line) {
        Ok(input) => list(&rt, input),
        Err(end) => rt.write_all(&line[..end]),
    }
}
