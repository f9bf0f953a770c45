// The trailer: "`eof; n`, n the number of `tbl` lines, only blank lines after it".
ghost use Rattle.std.specs.Prelude.{◌≡◌, ◌≤◌, ◌<◌, length, drop};
ghost use Rattle.page.specs.Lines.{lines};
ghost use Rattle.page.specs.Trailer.{eof_ok, counts, all_blank, trailer_of};

use lines::{content_of, lines_from};
use page::{Finding, Number};

fn is_count(x: Number, n: usize) -> bool
    ensures { result ≡ counts n x }
{
    match x {
        Number::Plus(m) => m == n as u64,
        Number::Minus(_) | Number::Nothing => false,
    }
}

// The content of the `eof` line of a file with n `tbl` lines.
#[tactic(auto, unfolding(page::specs::Trailer::eof_ok))]
fn holds_count(c: &[u8], n: usize) -> bool
    ensures { result ≡ eof_ok n c.now }
{
    let w = lines::rest_of(c);
    commands::is_clean(c, false)
        && commands::count_fields(w) == 1
        && is_count(digits::read_number(commands::field_at(w, 0)), n)
}

// The lines from a place on, which one line of the trailer stands before.
fn read_blanks(s: &[u8], from: usize) -> Finding
    requires { (0 < from) × (from ≤ length s.now) }
    ensures { result ≡ all_blank 1 (lines (drop from s.now)) }
{
    let mut n: usize = 1;
    for line in lines_from(s, from) {
        n += 1;
        if !lines::is_blank(content_of(line.bytes)) {
            return Finding {
                verdict: 3,
                line: n,
            };
        }
    }
    Finding {
        verdict: 0,
        line: 0,
    }
}

pub fn read_trailer(s: &[u8]) -> Finding
    ensures { result ≡ trailer_of s.now }
{
    let survey = cut::survey_file(s);
    let Some(line) = lines_from(s, survey.end).next() else {
        return Finding {
            verdict: 3,
            line: 0,
        };
    };
    if !holds_count(content_of(line.bytes), survey.sections) {
        return Finding {
            verdict: 3,
            line: 1,
        };
    }
    read_blanks(s, line.end())
}
