// A number field read where it stands in a line: `w` is what stands after its first `;`. A field of at most one space and then digits, as
// nearly all are, is walked once.
ghost use Rattle.std.specs.Prelude.{◌≡◌, Bool, true, false, ◌+◌, ◌-◌, ◌≤◌, ◌<◌, eqb, ltb, length, take, drop, get_or};
ghost use Rattle.page.specs.Bytes.{pick, space, all};
ghost use Rattle.page.specs.Lines.{allowed};
ghost use Rattle.page.specs.Fields.{field_size, number_of};
ghost use Rattle.page.specs.declared.Number.TheVariants as N;
ghost use Rattle.digits.specs.Runs.{field_from, Run};

use crate::numbers::{is_digit, read_number};
use page::Number;

// Digits: what they are worth, and where they end.
#[derive(Clone, Copy)]
struct Digits {
    value: u64,
    to: usize,
}

// A number field, where it ends, and whether its bytes are known to be allowed in any line.
#[derive(Clone, Copy)]
pub struct Counted {
    pub number: Number,
    pub end: usize,
    pub clean: bool,
}

pub fn skip_space(w: &[u8], at: usize) -> usize
    requires { at < length w.now }
    ensures { result ≡ pick (space (get_or w.now at 0)) (at + 1) at }
{
    if w[at] == 32 { at + 1 } else { at }
}

// How far 18 digits can reach.
fn reach(w: &[u8], from: usize) -> usize
    requires { from ≤ length w.now }
    ensures { (from ≤ result) × (result ≤ from + 18) × (result ≤ length w.now) }
{
    w.len().min(from + 18)
}

fn digits_at(w: &[u8], from: usize) -> Digits
    requires { from ≤ length w.now }
    ensures { Run w.now from result.to result.value }
{
    let most = reach(w, from);
    let mut value: u64 = 0;
    for to in from..most {
        let b = w[to];
        if !is_digit(b) {
            return Digits { value, to };
        }
        value = value * 10 + u64::from(b - 48);
    }
    Digits { value, to: most }
}

// Whether a field that has come to a place outside quotes ends there.
pub fn ends_at(w: &[u8], at: usize) -> bool
    ensures { result ≡ eqb (field_size false (drop at w.now)) 0 }
{
    w.len() <= at || w[at] == 59
}

// Not one with the text fields' `text_slowly`: they agree in where a field ends, and in nothing that they read.
fn number_slowly(w: &[u8], at: usize) -> Counted
    requires { at ≤ length w.now }
    ensures { (result.end ≡ at + field_size false (drop at w.now))
        × (result.number ≡ number_of (field_from w.now at))
        × (result.clean ≡ false) }
{
    let end = commands::field_end(w, at);
    Counted {
        number: read_number(lines::trimmed(&w[at..end])),
        end,
        clean: false,
    }
}

// A field that ends before its first digit has no number.
fn number_of(digits: Digits, from: usize) -> Number
    ensures { result ≡ pick (ltb from digits.to) (N.Plus digits.value) N.Nothing }
{
    if from < digits.to {
        Number::Plus(digits.value)
    } else {
        Number::Nothing
    }
}

// The number field that begins at a place, and where it ends.
pub fn number_at(w: &[u8], at: usize) -> Counted
    ensures { (result.end ≡ at + field_size false (drop at w.now))
        × (result.number ≡ number_of (field_from w.now at))
        × (result.clean ≡ true → (wide : Bool) → all (allowed wide) (take (result.end - at) (drop at w.now)) ≡ true) }
{
    if w.len() <= at {
        return Counted {
            number: Number::Nothing,
            end: at,
            clean: true,
        };
    }
    let from = skip_space(w, at);
    let d = digits_at(w, from);
    if ends_at(w, d.to) {
        return Counted {
            number: number_of(d, from),
            end: d.to,
            clean: true,
        };
    }
    number_slowly(w, at)
}
