// Which column stands where, by the names of an `atr` line.
ghost use Rattle.std.specs.Prelude.{◌≡◌, ◌<◌};
ghost use Rattle.page.specs.Lines.{lines};
ghost use Rattle.page.specs.Fields.{fields};
ghost use Rattle.page.specs.Tables.{width};
ghost use Rattle.page.specs.Records.{atr_in};
ghost use Rattle.names.specs.Told.{column_named, Arranges, Told};

use arrangement::list_columns;
use commands::Command;
use lines::lines_of;
use tables::{WIDEST, find_name, find_width};

// The column that a field names; past the last, if it names none. Column k is tried first: most files have document 01's own order.
fn find_column(f: &[u8], t: usize, k: usize) -> usize
    requires { k < width t }
    ensures { result ≡ column_named t f.now }
{
    if lines::equal(f, find_name(t, k)) {
        return k;
    }
    let n = find_width(t);
    for i in 0..n {
        if lines::equal(f, find_name(t, i)) {
            return i;
        }
    }
    n
}

// "any arrangement of a table's columns, each once, shall be read": w is what stands after the line's first `;`; the order in which the
// columns stand, if it arranges them; document 01's own, if it does not.
pub fn arrange(w: &[u8], t: usize) -> Result<[u8; WIDEST], [u8; WIDEST]>
    ensures { Arranges t (fields w.now) result }
{
    let n = find_width(t);
    let mut o = list_columns();
    let listed = o;
    let mut seen = [false; WIDEST];
    let mut at = 0;
    for k in 0..n {
        if w.len() < at {
            return Err(listed);
        }
        let e = commands::field_end(w, at);
        let c = find_column(lines::trimmed(&w[at..e]), t, k);
        if n <= c || seen[c] {
            return Err(listed);
        }
        seen[c] = true;
        o[k] = c as u8;
        at = e + 1;
    }
    if at <= w.len() {
        return Err(listed);
    }
    Ok(o)
}

// What stands after the first `;` of a section's `atr` line; nothing, if it has none.
fn find_names(s: &[u8]) -> &[u8]
    ensures { result.now ≡ atr_in (lines s.now) }
{
    for line in lines_of(s) {
        if commands::begins_with(line.bytes, Command::Atr) {
            return lines::rest_of(lines::content_of(line.bytes));
        }
    }
    &s[..0]
}

// The order that a section's `atr` line states, document 01's own if it states none: s is the section's bytes, and t its table.
pub fn find_order(s: &[u8], t: usize) -> [u8; WIDEST]
    ensures { Told t (fields (atr_in (lines s.now))) result }
{
    match arrange(find_names(s), t) {
        Ok(order) | Err(order) => order,
    }
}
