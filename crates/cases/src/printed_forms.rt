// What writing, filling and stripping make of a file: its answer, and the form itself.
use listing::{end_line, print_number};
use page::Refusal;
use std::io;
use std::io::Write;
use tables::WIDEST;

// A form of a listed file, with room for a filled text.
const ROOM: usize = 131072;

fn print_refusal<W: Write>(out: &mut W, r: Refusal) -> io::Result<()> {
    print_number(out, r.number as u64)?;
    print_number(out, r.section as u64)?;
    print_number(out, r.line as u64)?;
    end_line(out)
}

// The first n bytes, or all if there are fewer.
fn take_front(space: &[u8], n: usize) -> &[u8] {
    if n <= space.len() {
        return &space[..n];
    }
    space
}

// The answer after what was asked, and on success the form, which stands at the front of `space`.
fn print_form<W: Write>(out: &mut W, x: Result<usize, Refusal>, space: &[u8]) -> io::Result<()> {
    match x {
        Ok(n) => {
            print_number(out, 0)?;
            print_number(out, n as u64)?;
            end_line(out)?;
            out.write_all(take_front(space, n))
        }
        Err(r) => print_refusal(out, r),
    }
}

// "written once more no byte changes": 1 if that is so.
fn print_again<W: Write>(out: &mut W, form: &[u8]) -> io::Result<()> {
    let mut space = [0; ROOM];
    out.write_all(b"again")?;
    match forms::write(form, &mut space) {
        Ok(n) => {
            print_number(out, lines::equal(take_front(&space, n), form) as u64)?;
            end_line(out)
        }
        Err(r) => print_refusal(out, r),
    }
}

fn print_written<W: Write>(out: &mut W, s: &[u8]) -> io::Result<()> {
    let mut space = [0; ROOM];
    let x = forms::write(s, &mut space);
    out.write_all(b"write")?;
    print_form(out, x, &space)?;
    match x {
        Ok(n) => print_again(out, take_front(&space, n)),
        Err(_) => Ok(()),
    }
}

fn print_stripped<W: Write>(out: &mut W, s: &[u8]) -> io::Result<()> {
    let mut space = [0; ROOM];
    let x = forms::strip(s, &mut space);
    out.write_all(b"strip")?;
    print_form(out, x, &space)
}

fn print_filled<W: Write>(
    out: &mut W,
    s: &[u8],
    section: usize,
    record: usize,
    field: usize,
) -> io::Result<()> {
    let mut space = [0; ROOM];
    let x = forms::fill(s, section, record, field, b"Tag \"neu\"; 1  ", &mut space);
    out.write_all(b"fill")?;
    print_number(out, section as u64)?;
    print_number(out, record as u64)?;
    print_number(out, field as u64)?;
    print_form(out, x, &space)
}

fn print_filled_record<W: Write>(
    out: &mut W,
    s: &[u8],
    section: usize,
    record: usize,
) -> io::Result<()> {
    for field in 1..=WIDEST {
        print_filled(out, s, section, record, field)?;
    }
    Ok(())
}

fn print_filled_section<W: Write>(
    out: &mut W,
    s: &[u8],
    section: usize,
    records: usize,
) -> io::Result<()> {
    for record in 1..=records {
        print_filled_record(out, s, section, record)?;
    }
    Ok(())
}

// At every place of every record, and where there is none.
fn print_filled_everywhere<W: Write>(out: &mut W, s: &[u8]) -> io::Result<()> {
    for i in 1..=cut::count_sections(s) {
        match sections::section(s, i) {
            Ok(row) => print_filled_section(out, s, i, row.records)?,
            Err(r) => print_refusal(out, r)?,
        }
    }
    print_filled(out, s, 0, 1, 1)
}

pub fn print_forms<W: Write>(out: &mut W, s: &[u8]) -> io::Result<()> {
    print_written(out, s)?;
    print_stripped(out, s)?;
    let verdict = files::check_file(s);
    if verdict.number == 0 {
        print_filled_everywhere(out, s)
    } else {
        print_filled(out, s, 1, 1, 1)
    }
}
