// The fields of a line: `w` is what stands after its first `;`.
ghost use Rattle.std.specs.Prelude.{◌≡◌, false, [], ◌+◌, ◌-◌, ◌≤◌, ◌<◌, length, drop, get_or};
ghost use Rattle.std.specs.Iterator.{at_most};
ghost use Rattle.page.specs.Fields.{parts_here, inside_after, field_size, fields};
ghost use Rattle.page.specs.Places.{field_span};
ghost use Rattle.commands.specs.Fields.{GivesField};

use lines::{trim_in, trimmed};
use page::Span;

// "Fields after the command are separated by `;`; inside, `;` is plain."
fn parts_here(inside: bool, b: u8) -> bool
    ensures { result ≡ parts_here inside b }
{
    !inside && b == 59
}

// "A quote switches between outside and inside."
fn inside_after(inside: bool, b: u8) -> bool
    ensures { result ≡ inside_after inside b }
{
    if b == 34 { !inside } else { inside }
}

// Where the field that begins at a place ends.
pub fn field_end(w: &[u8], at: usize) -> usize
    ensures { result ≡ at + field_size false (drop at w.now) }
{
    let mut inside = false;
    for i in at..w.len() {
        let b = w[i];
        if parts_here(inside, b) {
            return i;
        }
        inside = inside_after(inside, b);
    }
    at.max(w.len())
}

// A field with the spaces around it, and where it begins.
#[derive(Clone, Copy)]
pub struct Field<'a> {
    pub at: usize,
    pub bytes: &'a [u8],
}

// The fields of a line, from the left.
#[derive(Clone, Copy)]
pub struct Fields<'a> {
    bytes: &'a [u8],
    at: usize,
}

pub fn fields_of(w: &[u8]) -> Fields<'_>
    ensures bytes { result.bytes.now ≡ w.now }
    ensures at { result.at ≡ 0 }
{
    Fields { bytes: w, at: 0 }
}

impl<'a> Iterator for Fields<'a> {
    type Item = Field<'a>;

    ghost next_gives = { GivesField };

    ghost remaining = { λ x. at_most (length x.bytes.now + 1 - x.at) };

    fn next(&mut self) -> Option<Field<'a>> {
        let w = self.bytes;
        let at = self.at;
        if w.len() < at {
            return None;
        }
        let to = field_end(w, at);
        self.at = to + 1;
        Some(Field {
            at,
            bytes: &w[at..to],
        })
    }
}

// One more than the separators, in one walk: a line of very many fields takes half as long again by `Fields`.
pub fn count_fields(w: &[u8]) -> usize
    ensures { result ≡ length (fields w.now) }
{
    let mut inside = false;
    let mut n = 1;
    for b in w {
        n += usize::from(parts_here(inside, *b));
        inside = inside_after(inside, *b);
    }
    n
}

// Field k, the first counted as 0, without the spaces around it; nothing if there is none.
pub fn field_at(w: &[u8], k: usize) -> &[u8]
    ensures { result.now ≡ get_or (fields w.now) k [] }
{
    match fields_of(w).nth(k) {
        Some(field) => trimmed(field.bytes),
        None => &w[..0],
    }
}

// Where field k stands, without the spaces around it.
pub fn find_field(w: &[u8], k: usize) -> Span
    requires { k < length (fields w.now) }
    ensures { (result ≡ field_span w.now k) × (result.from ≤ result.to) × (result.to ≤ length w.now) }
{
    let field = fields_of(w).nth(k).unwrap();
    trim_in(w, field.at, field.at + field.bytes.len())
}
