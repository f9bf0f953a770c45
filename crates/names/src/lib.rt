// A table by its name, and the lines that state a table's columns.
#![tactic(auto)]

ghost use Rattle.std.specs.Prelude.{◌≡◌};
ghost use Rattle.page.specs.Tables.{table_named};
ghost use Rattle.page.specs.Order.{standing};
ghost use Rattle.page.specs.Fields.{fields};
ghost use Rattle.page.specs.Section.{formats_ok};
ghost use Rattle.arrangement.specs.Orders.{held, Orderly};

mod formats;
mod orders;
mod titles;

pub use orders::{arrange, find_order};
use tables::{TABLES, WIDEST, find_title, find_width, is_text};
pub use titles::table_at;

// A table by its name; past the last, if no table has it.
pub fn find_table(w: &[u8]) -> usize
    ensures { result ≡ table_named w.now }
{
    for t in 0..TABLES {
        if lines::equal(w, find_title(t)) {
            return t;
        }
    }
    TABLES
}

// "`frm` with one format a column", as the columns stand.
pub fn formats_match(w: &[u8], t: usize, o: &[u8; WIDEST]) -> bool
    requires { Orderly o.now }
    ensures { result ≡ formats_ok (standing t (held t o.now)) (fields w.now) }
{
    let mut at = 0;
    for k in 0..find_width(t) {
        if w.len() < at {
            return false;
        }
        let e = commands::field_end(w, at);
        let text = is_text(t, o[k] as usize);
        if !crate::formats::is_format(lines::trimmed(&w[at..e]), text) {
            return false;
        }
        at = e + 1;
    }
    w.len() < at
}
