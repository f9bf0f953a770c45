// What a header's lines hold: `w` is what follows a line's first `;`.
ghost use Rattle.std.specs.Prelude.{◌≡◌, ◌||◌};
ghost use Rattle.page.specs.Bytes.{bytes, same};
ghost use Rattle.page.specs.Fields.{fields, text_of};
ghost use Rattle.page.specs.Header.{is_text, mod_form, src_ok, chs_ok, text_ok, holds};
ghost use Rattle.commands.specs.Commands.{code};

use crate::names::{form_named, is_ascii_name, is_latin_name};
use commands::{Command, count_fields, field_at};
use dates::{is_date, is_time};

fn is_text(f: &[u8]) -> bool
    ensures { result ≡ is_text (text_of f.now) }
{
    quoted::text_size(f).is_some()
}

#[tactic(auto, using(page::proofs::ChainLaws::same_is), unfolding(page::specs::Bytes::bytes))]
fn is_clock(f: &[u8]) -> bool
    ensures { result ≡ same f.now (bytes "HH:MM:SS") }
{
    f == b"HH:MM:SS".as_slice()
}

#[tactic(auto, using(page::proofs::ChainLaws::same_is), unfolding(page::specs::Bytes::bytes))]
fn is_mode(f: &[u8]) -> bool
    ensures { result ≡ (same f.now (bytes "free") || same f.now (bytes "aligned")) }
{
    f == b"free".as_slice() || f == b"aligned".as_slice()
}

// The date's form that a `mod` line states, or 0 if it breaks a rule, as the definition `mod_form` has it.
#[tactic(auto, unfolding(page::specs::Header::mod_form))]
pub fn read_mode(w: &[u8]) -> u32
    ensures { result ≡ mod_form (fields w.now) }
{
    if count_fields(w) == 3 && is_clock(field_at(w, 1)) && is_mode(field_at(w, 2)) {
        form_named(field_at(w, 0))
    } else {
        0
    }
}

#[tactic(auto, unfolding(page::specs::Header::src_ok))]
fn holds_source(w: &[u8], form: u32) -> bool
    ensures { result ≡ src_ok form (fields w.now) }
{
    count_fields(w) == 3
        && is_text(field_at(w, 0))
        && is_date(field_at(w, 1), form)
        && is_time(field_at(w, 2))
}

// Not one with `holds_text`: a test as an argument would be longer than the second function.
#[tactic(auto, unfolding(page::specs::Header::chs_ok))]
fn holds_charset(w: &[u8]) -> bool
    ensures { result ≡ chs_ok (fields w.now) }
{
    let f = field_at(w, 0);
    count_fields(w) == 1 && (is_ascii_name(f) || is_latin_name(f))
}

#[tactic(auto, unfolding(page::specs::Header::text_ok))]
fn holds_text(w: &[u8]) -> bool
    ensures { result ≡ text_ok (fields w.now) }
{
    count_fields(w) == 1 && is_text(field_at(w, 0))
}

// What a line of command k holds, under a date's form.
#[tactic(auto, unfolding(page::specs::Header::holds))]
pub fn holds(w: &[u8], k: Command, form: u32) -> bool
    ensures { result ≡ holds (code k) form (fields w.now) }
{
    match k {
        Command::Src => holds_source(w, form),
        Command::Chs => holds_charset(w),
        _ => holds_text(w),
    }
}
