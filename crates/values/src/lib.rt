// One value of a record.
#![tactic(auto)]

ghost use Rattle.std.specs.Prelude.{◌≡◌, [], suc, ◌+◌, ◌≤◌, length};
ghost use Rattle.page.specs.Tables.{WIDEST};
ghost use Rattle.page.specs.Marks.{owner_of};
ghost use Rattle.page.specs.Section.{field_of};
ghost use Rattle.page.specs.Places.{field_place};
ghost use Rattle.page.specs.File.{limit};
ghost use Rattle.page.specs.Reading.{later_field, field_at, valued, value_in};
ghost use Rattle.page.specs.declared.Owner.TheVariants as O;
ghost use Rattle.arrangement.specs.Orders.{held, Orderly};
ghost use Rattle.values.specs.Values.{Fits};

use arrangement::find_place;
use page::{Column, Field, Owner, Text, Value};
use tables::{WIDEST, find_column};

// "Each text handed out says whose it is."
fn owner_of(m: u64, f: usize) -> Owner
    ensures { result ≡ owner_of m f }
{
    if m == f as u64 {
        Owner::Suggestion
    } else {
        Owner::Operator
    }
}

// Where the field at place p, from 0, begins in w; what ends before it goes on past its end, a byte for each field that is not there.
fn find_start(w: &[u8], p: usize) -> usize
    requires { p ≤ WIDEST }
    ensures { result ≡ field_place p 0 w.now }
{
    let mut at = 0;
    for _ in 0..p {
        at = commands::field_end(w, at) + 1;
    }
    at
}

// What a field of bytes that stand at a place of the file is handed out as. No field of a sound record is refused.
fn hand_field(f: Field, at: usize, owner: Owner) -> Value
    requires { Fits at f }
    ensures { result ≡ valued owner (later_field at f) }
{
    match f {
        Field::Text(sp) => Value::Words(Text {
            from: at + sp.from,
            to: at + sp.to,
            owner: owner,
        }),
        Field::Number(n) => Value::Number(n),
        Field::Missing => Value::Missing,
        Field::Refused(_) => Value::Number(0),
    }
}

// What a field that is not there is handed out as: that of nothing. No record of a sound section lacks one.
fn hand_nothing(column: Column) -> Value
    ensures { result ≡ valued O.Operator (field_of column []) }
{
    if !column.text && column.optional {
        Value::Missing
    } else {
        Value::Number(0)
    }
}

// The field at place p, from 0, which begins at `start`, of the record whose fields are w and stand at a place of the file.
pub fn read_value(w: &[u8], at: usize, m: u64, p: usize, start: usize, column: Column) -> Value
    requires { (p ≤ WIDEST) × (start ≡ field_place p 0 w.now) × (at + length w.now ≤ limit) }
    ensures { result ≡ valued (owner_of m (suc p)) (later_field at (field_at column w.now p)) }
{
    if w.len() < start {
        return hand_nothing(column);
    }
    let r = fields::read_field(w, start, column, true);
    hand_field(r.field, at, owner_of(m, p + 1))
}

// Column f, from 1, of the record whose fields are w, in the order o, and stand at a place of the file.
pub fn value_in(w: &[u8], at: usize, m: u64, t: usize, o: &[u8; WIDEST], f: usize) -> Value
    requires { Orderly o.now × (f ≤ WIDEST) × (at + length w.now ≤ limit) }
    ensures { result ≡ value_in t (held t o.now) (record { at = at; rest = w.now; mark = m }) f }
{
    let c = f.saturating_sub(1);
    let p = find_place(o, t, c);
    read_value(w, at, m, p, find_start(w, p), find_column(t, c))
}
