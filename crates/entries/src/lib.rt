// The fields of a written record, column by column, each from what is read of it: k counts the columns from 0, and m is the column, from 1,
// of the mark that waits (0: none, a number as `datum_by` and `fields_form` have it).
#![tactic(auto)]

ghost use Rattle.std.specs.Prelude.{◌≡◌, ◌&&◌, [], ◌∷◌, ◌+◌, ◌<◌, ◌≤◌, eqb, length};
ghost use Rattle.page.specs.Bytes.{pick, part};
ghost use Rattle.page.specs.Fields.{fields};
ghost use Rattle.page.specs.Tables.{WIDEST, columns, column_at, width};
ghost use Rattle.page.specs.Order.{standing, by_column};
ghost use Rattle.page.specs.Section.{field_of as field_of_column, field_number, first_wrong};
ghost use Rattle.page.specs.Form.{datum_text};
ghost use Rattle.digits.specs.Runs.{field_from};
ghost use Rattle.output.specs.Put.{Puts};
ghost use Rattle.doubling.specs.Raw.{raw_text};
ghost use Rattle.arrangement.specs.Orders.{held, Stands};
ghost use Rattle.copies.specs.Changed.{strips, field_of, text_of};
ghost use Rattle.copies.specs.Parts.{datum_by, fields_form};

use arrangement::find_place;
use copies::Change;
use decimals::put_decimal;
use doubling::{put_quoted, put_raw};
use output::Output;
use page::{Field, Span};
use tables::{WIDEST, find_column, find_width};

// "Stripping gives the written form with marked texts empty."
fn is_stripped(change: Change<'_>, m: u64, k: usize) -> bool
    requires { k < 65536 }
    ensures { result ≡ (strips change.entry && eqb m (k + 1)) }
{
    match change {
        Change::Strip => m == k as u64 + 1,
        Change::Nothing | Change::Fill(_) => false,
    }
}

// "texts quoted": a text that stands in w is copied as it stands between its quotes.
fn put_words(out: &mut Output<'_>, w: &[u8], place: Span, stripped: bool)
    requires { (place.from ≤ place.to) × (place.to ≤ length w.now) }
    ensures { Puts out.old (pick stripped (34 ∷ 34 ∷ []) (raw_text (part place w.now))) out.new }
{
    if stripped {
        out.put_bytes(b"\"\"");
    } else {
        put_raw(out, &w[place.from..place.to]);
    }
}

// "Numbers without leading zeros, texts quoted": what is written of the field that begins at a place of w is what is read of it.
fn put_field(
    out: &mut Output<'_>,
    w: &[u8],
    from: usize,
    t: usize,
    k: usize,
    m: u64,
    change: Change<'_>,
)
    requires { (k < WIDEST)
        × (from ≤ length w.now)
        × (field_number (field_of_column (column_at t k) (field_from w.now from)) ≡ 0) }
    ensures { Puts out.old
        (datum_text (datum_by (strips change.entry) (field_of change.entry) (text_of change.entry) m (k + 1) (column_at t k) (field_from w.now from))) out.new }
{
    if let Some(text) = change.text_for(k + 1) {
        return put_quoted(out, text);
    }
    match fields::read_field(w, from, find_column(t, k), true).field {
        Field::Text(place) => put_words(out, w, place, is_stripped(change, m, k)),
        Field::Number(n) => put_decimal(out, n),
        Field::Missing => {}
        Field::Refused(_) => {}
    }
}

// "One space after each separating `;`": w is what stands after the record's first `;`, its fields in the order o.
pub fn put_fields(
    out: &mut Output<'_>,
    w: &[u8],
    t: usize,
    o: &[u8; WIDEST],
    m: u64,
    change: Change<'_>,
)
    requires { Stands t o.now
        × (length (fields w.now) ≡ width t)
        × (first_wrong (standing t (held t o.now)) (fields w.now) ≡ 0) }
    ensures { Puts out.old
        (fields_form (strips change.entry) (field_of change.entry) (text_of change.entry) m 1 (columns t) (by_column (held t o.now) (fields w.now)))
        out.new }
{
    let starts = starts::find_starts(w, t);
    for k in 0..find_width(t) {
        out.put_separator();
        put_field(out, w, starts[find_place(o, t, k)], t, k, m, change);
    }
}
