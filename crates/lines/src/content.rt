// A line's content, and the bytes allowed in it.
ghost use Rattle.std.specs.Prelude.{◌≡◌, ◌+◌, ◌≤◌, length, take, drop};
ghost use Rattle.page.specs.Bytes.{until, all};
ghost use Rattle.page.specs.Lines.{content_size, content, blank, semicolon, rest, allowed};

use crate::blocks::{Allowed, pass_block};
use crate::scan::spaces;

// How long a line is without its end.
pub fn content_len(l: &[u8]) -> usize
    ensures { result ≡ content_size l.now }
{
    match *l {
        [.., 13, 10] => l.len() - 2,
        [.., _, 10] => l.len() - 1,
        [10] => 0,
        _ => l.len(),
    }
}

pub fn content_of(l: &[u8]) -> &[u8]
    ensures { result.now ≡ content l.now }
{
    &l[..content_len(l)]
}

// "A line of spaces only, or of nothing, is blank."
pub fn is_blank(c: &[u8]) -> bool
    ensures { result ≡ blank c.now }
{
    spaces(c) == c.len()
}

// Where the first `;` stands, or the length.
pub fn find_semicolon(c: &[u8]) -> usize
    ensures { result ≡ until semicolon c.now }
{
    c.iter().position(|b| *b == 59).unwrap_or(c.len())
}

// What stands after the first `;`.
pub fn rest_of(c: &[u8]) -> &[u8]
    ensures { result.now ≡ rest c.now }
{
    let i = find_semicolon(c);
    if i < c.len() { &c[i + 1..] } else { &c[..0] }
}

// "Characters: 32..126 everywhere", and where it is wide also 161..255. No branch, so that many bytes are tested at once.
pub fn is_allowed(b: u8, wide: bool) -> bool
    ensures { result ≡ allowed wide b }
{
    (32 <= b) & (b <= 126) | (161 <= b) & wide
}

fn few_allowed(c: &[u8], wide: bool) -> bool
    ensures { result ≡ all (allowed wide) c.now }
{
    c.iter().all(|b| is_allowed(*b, wide))
}

// Sixteen bytes at a time; the last sixteen overlap those before them.
pub fn all_allowed(c: &[u8], wide: bool) -> bool
    ensures { result ≡ all (allowed wide) c.now }
{
    let n = c.len();
    if n < 16 {
        return few_allowed(c, wide);
    }
    let last = n - 16;
    let mut i = 0;
    // No chunks: the last sixteen begin among those before them, where chunks would leave a rest.
    while i < n {
        let at = i.min(last);
        if !pass_block(&Allowed { wide }, c, at) {
            return false;
        }
        i = at + 16;
    }
    true
}
