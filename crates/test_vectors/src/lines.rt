// What is printed: lines for a sheet with a name, and the sums.
use crate::Sums;
use crate::answers::{MARK, byte, nodes_of, part, plus};
use capi_put::put;
use counter::{Place, configuration, drawing};
use std::io;

fn text(rt: &impl Print, words: &[u8]) -> io::Result<()> {
    rt.write_all(words)
}

fn decimal(rt: &impl Print, number: usize) -> io::Result<()> {
    rt.print(number)
}

// root:leaf for each hung root.
fn placing_line(rt: &impl Print, placing: &[u8], n: usize) -> io::Result<()> {
    for v in 0..n {
        let leaf = byte(placing, v);
        if leaf == 255 {
            continue;
        }
        text(rt, b" ")?;
        decimal(rt, v)?;
        text(rt, b":")?;
        decimal(rt, leaf as usize)?;
    }
    text(rt, b"\n")
}

fn reading_lines(rt: &impl Print, sheet: &[u8], readings: usize) -> io::Result<()> {
    let mut place = Place::start();
    for number in 0..readings {
        let mut out = [MARK; 256];
        place = place.next(sheet, &mut out).place;
        decimal(rt, plus(number, 1))?;
        placing_line(rt, &out, nodes_of(sheet))?;
    }
    Ok(())
}

fn drawing_line(rt: &impl Print, sheet: &[u8]) -> io::Result<()> {
    let mut page = [MARK; 1024];
    let answer = drawing(sheet, 1, &mut page);
    let mut bytes = 0;
    put(answer, &mut bytes);
    text(rt, b"drawing ")?;
    text(rt, part(&page, bytes as usize))?;
    text(rt, b"\n")
}

fn configuration_line(rt: &impl Print, sheet: &[u8]) -> io::Result<()> {
    let mut out = [MARK; 256];
    let _ = configuration(sheet, &mut out);
    text(rt, b"configuration")?;
    placing_line(rt, &out, nodes_of(sheet))
}

// A short list's readings, configuration and first drawing besides.
fn solved_lines(rt: &impl Print, sheet: &[u8], readings: usize) -> io::Result<()> {
    text(rt, b": readings ")?;
    decimal(rt, readings)?;
    text(rt, b"\n")?;
    if readings <= 2 {
        reading_lines(rt, sheet, readings)?;
        configuration_line(rt, sheet)?;
        drawing_line(rt, sheet)?;
    }
    Ok(())
}

pub fn case(rt: &impl Print, name: &[u8], sheet: &[u8], readings: usize) -> io::Result<()> {
    text(rt, name)?;
    if readings == 0 {
        return text(rt, b": refused 9\n");
    }
    solved_lines(rt, sheet, readings)
}

fn sum(rt: &impl Print, label: &[u8], number: usize) -> io::Result<()> {
    text(rt, label)?;
    decimal(rt, number)
}

pub fn summary(rt: &impl Print, sums: Sums) -> io::Result<()> {
    sum(rt, b"sheets ", sums.sheets)?;
    sum(rt, b", refused ", sums.refused)?;
    sum(rt, b", readings ", sums.readings)?;
    sum(rt, b", mismatches ", sums.wrong)?;
    text(rt, b"\n")
}
