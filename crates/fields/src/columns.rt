// A field of a record, read as its column asks: a text with its span, a number with its value, a missing number, or a refusal with its
// number.
ghost use Rattle.std.specs.Prelude.{◌≡◌, Bool, true, false, ◌+◌, ◌-◌, ◌≤◌, length, take, drop, Some};
ghost use Rattle.page.specs.Bytes.{all};
ghost use Rattle.page.specs.Lines.{allowed};
ghost use Rattle.page.specs.Fields.{field_size, text_of};
ghost use Rattle.page.specs.Section.{words_of, text_field, field_of, amount};
ghost use Rattle.page.specs.Places.{span_from};
ghost use Rattle.page.specs.Reading.{later_field};
ghost use Rattle.digits.specs.Runs.{field_from};
ghost use Rattle.quoted.specs.Sizes.{size_of};

use amounts::judge_number;
use digits::number_at;
use page::{Column, Field, Number, Span};
use quoted::{text_at, text_size};

// A field, where it ends, and whether its bytes are known to be allowed.
#[derive(Clone, Copy)]
pub struct Reading {
    pub field: Field,
    pub end: usize,
    pub clean: bool,
}

// 13: the part of w from one place to another is a text of n bytes. "Spaces at the end of a text in a record no longer belong to it": its
// size and its span are without those that stand before the closing quote.
fn judge_text(w: &[u8], from: usize, to: usize, n: usize, size: u64) -> Field
    requires { (from ≤ to) × (to ≤ length w.now) × (size_of (text_of (take (to - from) (drop from w.now))) ≡ Some n) }
    ensures { result ≡ later_field from (text_field size (words_of (take (to - from) (drop from w.now)))) }
{
    let close = to - 1;
    let e = from + lines::kept(&w[from..close]);
    let own = n - (close - e);
    if size < own as u64 {
        return Field::Refused(13);
    }
    Field::Text(Span {
        from: from + 1,
        to: e,
    })
}

// 11, then 13: the field is the part of w from one place to another.
fn read_text_field(w: &[u8], from: usize, to: usize, size: u64) -> Field
    requires { (from ≤ to) × (to ≤ length w.now) }
    ensures { result ≡ later_field from (text_field size (words_of (take (to - from) (drop from w.now)))) }
{
    match text_size(&w[from..to]) {
        Some(n) => judge_text(w, from, to, n, size),
        None => Field::Refused(11),
    }
}

// A text field that is not met in one walk.
fn text_slowly(w: &[u8], at: usize, size: u64) -> Reading
    requires { at ≤ length w.now }
    ensures { (result.end ≡ at + field_size false (drop at w.now))
        × (result.field ≡ later_field (span_from w.now at).from (text_field size (words_of (field_from w.now at))))
        × (result.clean ≡ false) }
{
    let end = commands::field_end(w, at);
    let part = lines::trim_in(w, at, end);
    Reading {
        field: read_text_field(w, part.from, part.to, size),
        end,
        clean: false,
    }
}

fn text_from(w: &[u8], at: usize, size: u64, wide: bool) -> Reading
    requires { at ≤ length w.now }
    ensures { (result.end ≡ at + field_size false (drop at w.now))
        × (result.field ≡ later_field (span_from w.now at).from (text_field size (words_of (field_from w.now at))))
        × (result.clean ≡ true → all (allowed wide) (take (result.end - at) (drop at w.now)) ≡ true) }
{
    match text_at(w, at, wide) {
        Some(text) => Reading {
            field: judge_text(w, text.from, text.end, text.size, size),
            end: text.end,
            clean: true,
        },
        None => text_slowly(w, at, size),
    }
}

fn number_from(w: &[u8], at: usize, column: Column) -> Reading
    requires { (at ≤ length w.now) × (column.text ≡ false) }
    ensures { (result.end ≡ at + field_size false (drop at w.now))
        × (result.field ≡ field_of column (field_from w.now at))
        × (result.clean ≡ true → (wide : Bool) → all (allowed wide) (take (result.end - at) (drop at w.now)) ≡ true) }
{
    let read = number_at(w, at);
    Reading {
        field: judge_number(w, at, read.end, read.number, column),
        end: read.end,
        clean: read.clean,
    }
}

// The field that begins at a place of w, which is what stands after its line's first `;`: a text's span is where it stands in w. `wide`: the
// line may hold bytes 161..255.
pub fn read_field(w: &[u8], at: usize, column: Column, wide: bool) -> Reading
    requires { at ≤ length w.now }
    ensures { (result.end ≡ at + field_size false (drop at w.now))
        × (result.field ≡ later_field (span_from w.now at).from (field_of column (field_from w.now at)))
        × (result.clean ≡ true → all (allowed wide) (take (result.end - at) (drop at w.now)) ≡ true) }
{
    if column.text {
        text_from(w, at, column.hi, wide)
    } else {
        number_from(w, at, column)
    }
}

// The value of a number that was found in its range, and 0 for any other.
pub fn worth(number: Number) -> u64
    ensures { result ≡ amount number }
{
    match number {
        Number::Plus(n) => n,
        Number::Minus(_) | Number::Nothing => 0,
    }
}
