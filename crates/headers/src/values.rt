// A header's values: `h` is the header's bytes, and every line that is missing counts as one of no fields.
ghost use Rattle.std.specs.Prelude.{◌≡◌, ◌≤◌, ◌<◌, length};
ghost use Rattle.page.specs.Lines.{lines, Src};
ghost use Rattle.page.specs.Cut.{header_lines};
ghost use Rattle.page.specs.Dates.{date_of, time_of};
ghost use Rattle.page.specs.Places.{line_of};
ghost use Rattle.page.specs.Head.{field_in, form_in, latin_in, text_span, span_if, header_values, latin_of};
ghost use Rattle.page.specs.File.{limit};
ghost use Rattle.commands.specs.Commands.{code};

use crate::find::find_line;
use commands::Command;
use cut::header_size;
use page::{Date, Header, Span, Time};

// What follows the first `;` of the line of command k.
fn rest_in(h: &[u8], k: Command) -> &[u8]
    requires { code k < 16 }
    ensures { result.now ≡ (line_of (code k) 0 (lines h.now)).rest }
{
    let rest = find_line(h, k);
    &h[rest.from..rest.to]
}

// Field i of the line of command k, the first counted as 0.
#[tactic(auto, unfolding(page::specs::Head::field_in))]
fn field_in(h: &[u8], k: Command, i: usize) -> &[u8]
    requires { code k < 16 }
    ensures { result.now ≡ field_in (code k) i (lines h.now) }
{
    commands::field_at(rest_in(h, k), i)
}

#[tactic(auto, unfolding(page::specs::Head::latin_in))]
fn charset_in(h: &[u8]) -> bool
    ensures { result ≡ latin_in (lines h.now) }
{
    clauses::is_latin_name(field_in(h, Command::Chs, 0))
}

// A date's form is what `mod` states.
#[tactic(auto, unfolding(page::specs::Head::form_in))]
fn date_in(h: &[u8]) -> Date
    ensures { result ≡ date_of (form_in (lines h.now)) (field_in Src 1 (lines h.now)) }
{
    let form = clauses::read_mode(rest_in(h, Command::Mod));
    dates::read_date(field_in(h, Command::Src, 1), form)
}

fn time_in(h: &[u8]) -> Time
    ensures { result ≡ time_of (field_in Src 2 (lines h.now)) }
{
    dates::read_time(field_in(h, Command::Src, 2))
}

// Where the text of the line of command k stands, between its quotes.
fn text_in(h: &[u8], k: Command) -> Span
    requires { (code k < 16) × (length h.now ≤ limit) }
    ensures { result ≡ text_span (code k) (lines h.now) }
{
    let l = find_line(h, k);
    let a = l.from;
    let e = l.to;
    let f = commands::find_field(&h[a..e], 0);
    Span {
        from: a + (f.from + 1),
        to: a + f.to.saturating_sub(1),
    }
}

// "Whether `dve` and `fft` stand is kept."
#[tactic(auto, unfolding(page::specs::Head::span_if))]
fn state_text(h: &[u8], k: Command) -> Option<Span>
    requires { (code k < 16) × (length h.now ≤ limit) }
    ensures { result ≡ span_if (code k) (lines h.now) }
{
    if crate::find::stands_in(h, k) {
        Some(text_in(h, k))
    } else {
        None
    }
}

#[tactic(auto, unfolding(page::specs::Head::header_values))]
fn values_in(h: &[u8]) -> Header
    requires { length h.now ≤ limit }
    ensures { result ≡ header_values (lines h.now) }
{
    let source = text_in(h, Command::Src);
    let date = date_in(h);
    let time = time_in(h);
    let latin = charset_in(h);
    let ver = text_in(h, Command::Ver);
    let ifv = text_in(h, Command::Ifv);
    let dve = state_text(h, Command::Dve);
    let fft = state_text(h, Command::Fft);
    Header {
        source,
        date,
        time,
        latin,
        ver,
        ifv,
        dve,
        fft,
    }
}

// The values of a file's header.
pub fn read_values(s: &[u8]) -> Header
    requires { length s.now ≤ limit }
    ensures { result ≡ header_values (header_lines s.now) }
{
    let e = header_size(s);
    values_in(&s[..e])
}

// Does a file's header name ISO8859-1?
pub fn read_charset(s: &[u8]) -> bool
    ensures { result ≡ latin_of s.now }
{
    let e = header_size(s);
    charset_in(&s[..e])
}
