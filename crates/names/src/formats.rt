// "A format is `num[n.0]` or `char[n]` as the column's kind asks, n from 1 to 255 without leading zeros."
ghost use Rattle.std.specs.Prelude.{◌≡◌};
ghost use Rattle.page.specs.Bytes.{until};
ghost use Rattle.page.specs.Section.{no_digit, size_ok, formed, format_ok};

use digits::{is_digit, read_digits};

// How many digits stand at the front.
fn count_digits(w: &[u8]) -> usize
    ensures { result ≡ until no_digit w.now }
{
    for (i, b) in w.iter().enumerate() {
        if !is_digit(*b) {
            return i;
        }
    }
    w.len()
}

fn is_size(w: &[u8]) -> bool
    ensures { result ≡ size_ok w.now }
{
    match read_digits(w) {
        Some(v) => w[0] != 48 && v <= 255,
        None => false,
    }
}

// A name, a size, and a tail.
pub fn is_formed(w: &[u8], name: &[u8], tail: &[u8]) -> bool
    ensures { result ≡ formed name.now tail.now w.now }
{
    let p = name.len();
    if w.len() < p || !lines::equal(&w[..p], name) {
        return false;
    }
    let d = p + count_digits(&w[p..]);
    is_size(&w[p..d]) && lines::equal(&w[d..], tail)
}

pub fn is_format(f: &[u8], text: bool) -> bool
    ensures { result ≡ format_ok text f.now }
{
    if text {
        return is_formed(f, b"char[", b"]");
    }
    is_formed(f, b"num[", b".0]")
}
