// A section read from its bytes.
ghost use Rattle.std.specs.Prelude.{◌≡◌, ◌<◌, length};
ghost use Rattle.page.specs.Lines.{lines};
ghost use Rattle.page.specs.Section.{table_in, refused, finish, outcome};
ghost use Rattle.page.specs.File.{row_of};
ghost use Rattle.cut.specs.Walk.{section_from};

use crate::records::skip_records;
use arrangement::list_columns;
use cut::section_end;
use lines::lines_from;
use machine::step;
use page::{Outcome, Phase, Row};
use tables::find_number;

// "Table number is 0 if the `tbl` line fails."
fn table_in(p: Phase) -> u32
    ensures { result ≡ table_in p }
{
    match p {
        Phase::Tbl => 0,
        Phase::Atr(t) | Phase::Frm(t) | Phase::Rows(t, _, _) | Phase::Ended(t, _) => find_number(t),
    }
}

fn refuse(table: u32, verdict: u32, line: usize) -> Outcome
    ensures { result ≡ refused table verdict line }
{
    Outcome {
        table,
        records: 0,
        verdict,
        line,
    }
}

// "section ends without `end` (place: its last line; only if no line fails)": n lines have been read.
fn finish(p: Phase, n: usize) -> Outcome
    ensures { result ≡ finish p n }
{
    match p {
        Phase::Ended(t, records) => Outcome {
            table: find_number(t),
            records,
            verdict: 0,
            line: 0,
        },
        _ => refuse(table_in(p), 6, n),
    }
}

// "A section gives its first failing line": s is the section's bytes.
pub fn read_lines(s: &[u8], latin: bool) -> Outcome
    ensures { result ≡ outcome latin (lines s.now) }
{
    let mut at = 0;
    let mut n: usize = 0;
    let mut p = Phase::Tbl;
    let mut o = list_columns();
    // No `for` over the lines: whole runs of records are passed between two of them.
    loop {
        let r = skip_records(s, at, p, &o, latin);
        n += r.count;
        p = r.phase;
        let Some(line) = lines_from(s, r.at).next() else {
            return finish(p, n);
        };
        n += 1;
        match step(line.bytes, p, o, latin) {
            Ok(m) => {
                p = m.phase;
                o = m.order;
            }
            Err(v) => return refuse(table_in(p), v, n),
        }
        at = line.end();
    }
}

// "table number, place, length, record count and verdict"
pub fn read_section(s: &[u8], from: usize, latin: bool) -> Row
    requires { from < length s.now }
    ensures { result ≡ row_of latin (section_from s.now from) }
{
    let e = section_end(s, from);
    let o = read_lines(&s[from..e], latin);
    Row {
        table: o.table,
        place: from,
        length: e - from,
        records: o.records,
        verdict: o.verdict,
        line: o.line,
    }
}
