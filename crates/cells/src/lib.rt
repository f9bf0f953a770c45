// The values of one record, three numbers each.
#![tactic(auto)]

ghost use Rattle.std.specs.Prelude.{◌≡◌, [], ◌∷◌, ◌+◌, ◌≤◌, length};
ghost use Rattle.page.specs.Tables.{width};
ghost use Rattle.page.specs.File.{limit};
ghost use Rattle.page.specs.Handing.{owner_cell, cell_of, record_cells};
ghost use Rattle.arrangement.specs.Orders.{held, Stands};
ghost use Rattle.output.specs.Put.{Put};

use arrangement::find_place;
use page::{Owner, Value};
use starts::find_starts;
use tables::{WIDEST, find_column, find_width};
use values::read_value;

fn put_three(cells: &mut [u64], o: usize, kind: u64, a: u64, b: u64) -> usize
    requires { o + 3 ≤ length cells.old }
    ensures { Put cells.old o (kind ∷ a ∷ b ∷ []) cells.new result }
{
    cells[o] = kind;
    cells[o + 1] = a;
    cells[o + 2] = b;
    o + 3
}

// "Each text handed out says whose it is: the operator's, or a suggestion."
// Beside `told`'s `owner_kind`: that crate is of the exports for C, above this one, and below both stands no crate that numbers an owner.
fn number_owner(x: Owner) -> u64
    ensures { result ≡ owner_cell x }
{
    match x {
        Owner::Operator => 1,
        Owner::Suggestion => 2,
    }
}

fn put_value(cells: &mut [u64], o: usize, v: Value) -> usize
    requires { o + 3 ≤ length cells.old }
    ensures { Put cells.old o (cell_of v) cells.new result }
{
    match v {
        Value::Number(n) => put_three(cells, o, 0, n, 0),
        Value::Missing => put_three(cells, o, 3, 0, 0),
        Value::Words(x) => put_three(cells, o, number_owner(x.owner), x.from as u64, x.to as u64),
    }
}

// The values of a record of table t, by column.
pub fn put_values(
    cells: &mut [u64],
    from: usize,
    w: &[u8],
    at: usize,
    m: u64,
    t: usize,
    o: &[u8; WIDEST],
) -> usize
    requires { Stands t o.now
        × (at + length w.now ≤ limit)
        × (from + length (record_cells t (held t o.now) (record { at = at; rest = w.now; mark = m }) 1 (width t)) ≤ length cells.old) }
    ensures { Put cells.old from (record_cells t (held t o.now) (record { at = at; rest = w.now; mark = m }) 1 (width t)) cells.new result }
{
    let starts = find_starts(w, t);
    let mut i = from;
    for c in 0..find_width(t) {
        let p = find_place(o, t, c);
        let value = read_value(w, at, m, p, starts[p], find_column(t, c));
        i = put_value(cells, i, value);
    }
    i
}
