// Writing, stripping and filling into lent output, whole or not at all.
ghost use Rattle.std.specs.Prelude.{◌≡◌, length};
ghost use Rattle.page.specs.Writing.{write_of, write_after, strip_of, strip_after, fill_refusal, fill_of, fill_after};

use fills::judge_fill;
use page::Refusal;
use writing::{fill_checked, strip_checked, write_checked};

pub fn write(s: &[u8], out: &mut [u8]) -> Result<usize, Refusal>
    ensures { (result ≡ write_of s.now (length out.old))
        × (out.new ≡ write_after s.now out.old) }
{
    let refusal = files::check_file(s);
    write_checked(s, refusal, out)
}

pub fn strip(s: &[u8], out: &mut [u8]) -> Result<usize, Refusal>
    ensures { (result ≡ strip_of s.now (length out.old))
        × (out.new ≡ strip_after s.now out.old) }
{
    let refusal = files::check_file(s);
    strip_checked(s, refusal, out)
}

// "Order: verdict, 24, 23, 22, text empty 11, text byte not allowed in a `rec` 4, over 40 bytes 13"
fn refuse_fill(s: &[u8], section: usize, record: usize, field: usize, text: &[u8]) -> Refusal
    ensures { result ≡ fill_refusal s.now section «record» field text.now }
{
    let verdict = files::check_file(s);
    if verdict.number != 0 {
        return verdict;
    }
    match lookups::value(s, section, record, field) {
        Ok(v) => Refusal {
            number: judge_fill(s, section, field, v, text),
            section: 0,
            line: 0,
        },
        Err(x) => x,
    }
}

// "Filling names section, record and field (from 1) and a text; the result is the written form with that text and its mark." "A text of
// spaces only is empty, and a fill's text is trimmed likewise."
pub fn fill(
    s: &[u8],
    section: usize,
    record: usize,
    field: usize,
    text: &[u8],
    out: &mut [u8],
) -> Result<usize, Refusal>
    ensures { (result ≡ fill_of s.now section «record» field text.now (length out.old))
        × (out.new ≡ fill_after s.now section «record» field text.now out.old) }
{
    let own = lines::unpadded(text);
    let refusal = refuse_fill(s, section, record, field, own);
    fill_checked(s, refusal, section, record, field, own, out)
}
