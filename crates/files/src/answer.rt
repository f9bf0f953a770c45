// "The file gives the first of 1, 2, 3, the first unsound section in file order, 17, 18, 19, 20."
ghost use Rattle.std.specs.Prelude.{◌≡◌, true};
ghost use Rattle.page.specs.Answers.{answered, sound};
ghost use Rattle.page.specs.File.{filed_of, rows_of, first_unsound, record_refusal, section_refusal, file_refusal, check_of};
ghost use Rattle.seats.specs.Seating.{Ready};

use crate::unsound::first_unsound;
use page::Refusal;
use references::first_lost;
use repeats::first_repeat;
use seats::{Seats, seat_tables};

// The paper's number 0 refuses nothing.
fn pass(r: Refusal) -> Result<(), Refusal>
    ensures { result ≡ answered r tt }
{
    if r.number == 0 { Ok(()) } else { Err(r) }
}

// 18, 19, 20
fn check_records(s: &[u8], seats: &Seats) -> Result<(), Refusal>
    requires { Ready s.now seats.now }
    ensures { result ≡ answered (record_refusal (filed_of s.now)) tt }
{
    first_repeat(s, seats, false)?;
    first_repeat(s, seats, true)?;
    first_lost(s, seats)
}

// `known`: every section has been read and is sound, so that none is read again.
fn find_unsound(s: &[u8], known: bool) -> Result<(), Refusal>
    requires { known ≡ true → first_unsound 1 (rows_of s.now) ≡ sound }
    ensures { result ≡ answered (first_unsound 1 (rows_of s.now)) tt }
{
    if known {
        return Ok(());
    }
    first_unsound(s, headers::read_charset(s))
}

// The sections', 17, and the records'.
fn check_sections(s: &[u8], known: bool) -> Result<(), Refusal>
    requires { known ≡ true → first_unsound 1 (rows_of s.now) ≡ sound }
    ensures { result ≡ answered (section_refusal s.now) tt }
{
    find_unsound(s, known)?;
    let seats = seat_tables(s)?;
    check_records(s, &seats)
}

fn check_all(s: &[u8], known: bool) -> Result<(), Refusal>
    requires { known ≡ true → first_unsound 1 (rows_of s.now) ≡ sound }
    ensures { result ≡ answered (file_refusal s.now) tt }
{
    pass(headers::refuse_header(s))?;
    let trailer = trailers::read_trailer(s);
    pass(Refusal {
        number: trailer.verdict,
        section: 0,
        line: trailer.line,
    })?;
    check_sections(s, known)
}

// The file's answer for whoever has read its sections, as the paper has it: a number, 0 for none, and its place.
pub fn check_known(s: &[u8], known: bool) -> Refusal
    requires { known ≡ true → first_unsound 1 (rows_of s.now) ≡ sound }
    ensures { result ≡ file_refusal s.now }
{
    match check_all(s, known) {
        Ok(()) => Refusal {
            number: 0,
            section: 0,
            line: 0,
        },
        Err(r) => r,
    }
}

pub fn check_file(s: &[u8]) -> Refusal
    ensures { result ≡ file_refusal s.now }
{
    check_known(s, false)
}

pub fn check(s: &[u8]) -> Result<(), Refusal>
    ensures { result ≡ check_of s.now }
{
    check_all(s, false)
}
