// "A `com` line whose trimmed rest is one closed text beginning `SUGGESTED ` is a mark; any other is an ordinary comment." Neither that
// word nor a digit holds a quote, so a mark is read from the bytes between the quotes.
ghost use Rattle.std.specs.Prelude.{◌≡◌};
ghost use Rattle.page.specs.Fields.{text_of};
ghost use Rattle.page.specs.Marks.{mark_number, mark_text, mark_in, remark_of};
ghost use Rattle.page.specs.Records.{waits};

use crate::texts::text_size;
use commands::Command;
use digits::read_digits;
use page::Remark;

// "the field number, without leading zeros, and nothing more"
fn read_mark_number(w: &[u8]) -> Remark
    ensures { result ≡ mark_number w.now }
{
    match read_digits(w) {
        Some(v) if w[0] != 48 => Remark::Mark(v),
        _ => Remark::Unreadable,
    }
}

fn read_mark_text(t: &[u8]) -> Remark
    ensures { result ≡ mark_text t.now }
{
    match t.strip_prefix(b"SUGGESTED ") {
        Some(number) => read_mark_number(number),
        None => Remark::Comment,
    }
}

// f is the rest, trimmed.
fn read_mark_field(f: &[u8]) -> Remark
    ensures { result ≡ mark_in (text_of f.now) }
{
    match text_size(f) {
        Some(_) => read_mark_text(&f[1..f.len() - 1]),
        None => Remark::Comment,
    }
}

// w is what follows the first `;` of a `com` line.
pub fn read_remark(w: &[u8]) -> Remark
    ensures { result ≡ remark_of w.now }
{
    read_mark_field(lines::trimmed(w))
}

// The mark that waits after a line with the content c: "It speaks of the next `rec`."
pub fn wait_on(c: &[u8], m: u64) -> u64
    ensures { result ≡ waits m c.now }
{
    if Command::of(c) != Command::Com {
        return m;
    }
    match read_remark(lines::rest_of(c)) {
        Remark::Comment | Remark::Unreadable => m,
        Remark::Mark(i) => i,
    }
}
