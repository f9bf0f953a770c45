// What the call that reads one value answers.
#![tactic(auto)]

ghost use Rattle.std.specs.Prelude.{◌≡◌, ◌<◌, ◌≤◌, length, drop};
ghost use Rattle.page.specs.Lines.{lines};
ghost use Rattle.page.specs.Tables.{WIDEST};
ghost use Rattle.page.specs.Places.{record_at};
ghost use Rattle.page.specs.File.{limit};
ghost use Rattle.page.specs.Reading.{outside, value_in, value_of};
ghost use Rattle.arrangement.specs.Orders.{held, Orderly};
ghost use Rattle.cut.specs.Walk.{Settled};
ghost use Rattle.lookups.specs.Lookups.{value_from};

use names::table_at;
use page::{Refusal, Value};
use places::find_record;
use sections::{locate, read_section, refuse_with};
use tables::WIDEST;
use values::value_in;

fn is_outside(i: usize, n: usize) -> bool
    ensures { result ≡ outside i n }
{
    if i == 0 {
        return true;
    }
    n < i
}

// Column f, from 1, of the record after r others, in the order o; s ends where the section at a place does.
fn seek_value(s: &[u8], at: usize, t: usize, o: &[u8; WIDEST], r: usize, f: usize) -> Value
    requires { (at ≤ length s.now) × (length s.now ≤ limit) × Orderly o.now × (f ≤ WIDEST) }
    ensures { result ≡ value_in t (held t o.now) (record_at r 0 at (lines (drop at s.now))) f }
{
    let p = find_record(s, at, r);
    let a = p.from;
    let e = p.to;
    let m = p.mark;
    value_in(&s[a..e], a, m, t, o, f)
}

// "the section's verdict, 24 for the record or field"
fn value_at(file: &[u8], i: usize, at: usize, r: usize, f: usize) -> Result<Value, Refusal>
    requires { (at < length file.now) × (length file.now ≤ limit) × Settled file.now at }
    ensures { result ≡ value_from file.now i at r f }
{
    let latin = headers::read_charset(file);
    let row = read_section(file, at, latin);
    if row.verdict != 0 {
        return Err(Refusal {
            number: row.verdict,
            section: i,
            line: row.line,
        });
    }
    if is_outside(r, row.records) {
        return Err(refuse_with(24));
    }
    let t = table_at(file, at);
    if is_outside(f, tables::find_width(t)) {
        return Err(refuse_with(24));
    }
    let e = at + row.length;
    let o = names::find_order(&file[at..e], t);
    Ok(seek_value(&file[..e], at, t, &o, r - 1, f))
}

// Column f of record r of section i, all from 1.
pub fn value(file: &[u8], i: usize, r: usize, f: usize) -> Result<Value, Refusal>
    ensures { result ≡ value_of file.now i r f }
{
    let at = locate(file, i)?;
    value_at(file, i, at, r, f)
}
