// All values of one table as numbers.
#![tactic(auto)]

ghost use Rattle.std.specs.Prelude.{◌≡◌, ◌≤◌, length, drop};
ghost use Rattle.page.specs.Lines.{lines};
ghost use Rattle.page.specs.File.{limit};
ghost use Rattle.page.specs.Handing.{cells_in, table_of, cells_after};
ghost use Rattle.arrangement.specs.Orders.{held, Stands};
ghost use Rattle.sections.specs.Located.{Begins};
ghost use Rattle.output.specs.Put.{Put};

use cells::put_values;
use lines::lines_from;
use page::Refusal;
use tables::{WIDEST, find_width};

// The records of the lines from a place on, in the order o.
fn put_records(cells: &mut [u64], s: &[u8], from: usize, t: usize, o: &[u8; WIDEST]) -> usize
    requires { (from ≤ length s.now)
        × (length s.now ≤ limit)
        × Stands t o.now
        × (length (cells_in t (held t o.now) 0 from (lines (drop from s.now))) ≤ length cells.old) }
    ensures { Put cells.old 0 (cells_in t (held t o.now) 0 from (lines (drop from s.now))) cells.new result }
{
    let mut m: u64 = 0;
    let mut i: usize = 0;
    for line in lines_from(s, from) {
        if commands::is_record(line.bytes) {
            let p = places::place_fields(s, line.at, line.end(), m);
            i = put_values(cells, i, &s[p.from..p.to], p.from, p.mark, t, o);
            m = 0;
        } else {
            m = places::wait_on(line.bytes, m);
        }
    }
    i
}

// The section at a place: "the section's verdict", then 21 for too little room; three numbers for each column of each record.
fn hand_table(file: &[u8], section: usize, at: usize, cells: &mut [u64]) -> Result<usize, Refusal>
    requires { Begins file.now section at }
    ensures { (result ≡ table_of file.now section (length cells.old))
        × (cells.new ≡ cells_after file.now section cells.old) }
{
    let latin = headers::read_charset(file);
    let row = sections::read_section(file, at, latin);
    if row.verdict != 0 {
        return Err(Refusal {
            number: row.verdict,
            section,
            line: row.line,
        });
    }
    let t = names::table_at(file, at);
    let n = find_width(t) * 3;
    if cells.len() < row.records * n {
        return Err(sections::refuse_with(21));
    }
    let e = at + row.length;
    let o = names::find_order(&file[at..e], t);
    Ok(put_records(cells, &file[..e], at, t, &o))
}

// All values of section i, from 1, record by record and column by column.
pub fn table(file: &[u8], section: usize, cells: &mut [u64]) -> Result<usize, Refusal>
    ensures { (result ≡ table_of file.now section (length cells.old))
        × (cells.new ≡ cells_after file.now section cells.old) }
{
    let at = sections::locate(file, section)?;
    hand_table(file, section, at, cells)
}
