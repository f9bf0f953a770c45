// What the program `lister` prints of a file.
#![tactic(auto)]

use page::{Refusal, Row};
use std::alloc::Global;
use std::io;
use std::io::{Read, Write};

// "up to 64 KiB": one more byte tells that there is more.
const ROOM: usize = 65537;

pub fn print_number<W: Write>(out: &mut W, n: u64) -> io::Result<()> {
    write!(out, ";{n}")
}

pub fn end_line<W: Write>(out: &mut W) -> io::Result<()> {
    out.write_all(b"\n")
}

// "header verdict and line"
fn print_header<W: Write>(out: &mut W, verdict: u32, line: usize) -> io::Result<()> {
    out.write_all(b"header")?;
    print_number(out, verdict as u64)?;
    print_number(out, line as u64)?;
    end_line(out)
}

// "section, table number, verdict, records, line"
fn print_row<W: Write>(out: &mut W, i: usize, row: Row) -> io::Result<()> {
    out.write_all(b"table")?;
    print_number(out, i as u64)?;
    print_number(out, row.table as u64)?;
    print_number(out, row.verdict as u64)?;
    print_number(out, row.records as u64)?;
    print_number(out, row.line as u64)?;
    end_line(out)
}

fn print_sections<W: Write>(out: &mut W, s: &[u8]) -> io::Result<()> {
    let latin = headers::read_charset(s);
    let mut i: usize = 1;
    for section in cut::sections_of(s) {
        print_row(out, i, sections::read_section(s, section.at, latin))?;
        i += 1;
    }
    Ok(())
}

// "trailer verdict"
fn print_trailer<W: Write>(out: &mut W, s: &[u8]) -> io::Result<()> {
    let found = trailers::read_trailer(s);
    out.write_all(b"trailer")?;
    print_number(out, found.verdict as u64)?;
    end_line(out)
}

// "file verdict, section, line"
fn print_answer<W: Write>(out: &mut W, r: Refusal) -> io::Result<()> {
    out.write_all(b"file")?;
    print_number(out, r.number as u64)?;
    print_number(out, r.section as u64)?;
    print_number(out, r.line as u64)?;
    end_line(out)
}

// "With a refused header only the header and file lines are printed"
fn print_file<W: Write>(out: &mut W, s: &[u8]) -> io::Result<()> {
    let found = headers::read_header(s);
    print_header(out, found.verdict, found.line)?;
    if found.verdict == 0 {
        print_sections(out, s)?;
        print_trailer(out, s)?;
    }
    print_answer(out, files::check_file(s))
}

// "longer input prints the one line `too long`"
pub fn print_listing<W: Write>(out: &mut W, s: &[u8]) -> io::Result<()> {
    if ROOM <= s.len() {
        return out.write_all(b"too long\n");
    }
    print_file(out, s)
}

// All of the input, up to what is listed and one byte more.
pub fn read_front<R: Read + Drop>(alloc: Global, input: R) -> io::Result<Vec<u8>> {
    let mut s = Vec::new(alloc);
    input.take(ROOM as u64).read_to_end(&mut s)?;
    Ok(s)
}

pub fn list_input<R: Read + Drop, W: Write>(
    alloc: Global,
    input: R,
    out: &mut W,
) -> io::Result<()> {
    let s = read_front(alloc, input)?;
    print_listing(out, s.as_slice())
}
