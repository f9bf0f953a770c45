// Scans over bytes.
ghost use Rattle.std.specs.Prelude.{◌≡◌, ◌-◌, ◌≤◌, length, take, drop};
ghost use Rattle.page.specs.Bytes.{same, until, keep, space, no_space, moved, trim_of, trim, unpadded};

use page::Span;

pub fn equal(a: &[u8], b: &[u8]) -> bool
    ensures { result ≡ same a.now b.now }
{
    a == b
}

// How many spaces stand at the front.
pub fn spaces(s: &[u8]) -> usize
    ensures { result ≡ until no_space s.now }
{
    s.iter().position(|b| *b != 32).unwrap_or(s.len())
}

// How many bytes are left without the spaces at the end.
pub fn kept(s: &[u8]) -> usize
    ensures { result ≡ keep space s.now }
{
    for i in (0..s.len()).rev() {
        if s[i] != 32 {
            return i + 1;
        }
    }
    0
}

// "Spaces at the end of a text in a record no longer belong to it."
pub fn unpadded(t: &[u8]) -> &[u8]
    ensures { result.now ≡ unpadded t.now }
{
    &t[..kept(t)]
}

pub fn trim(s: &[u8]) -> Span
    ensures { result ≡ trim_of s.now }
{
    let to = kept(s);
    let from = spaces(&s[..to]);
    Span { from, to }
}

pub fn trimmed(s: &[u8]) -> &[u8]
    ensures { result.now ≡ trim s.now }
{
    let part = trim(s);
    &s[part.from..part.to]
}

// What is left of a part without the spaces around it, in places of the whole.
pub fn trim_in(s: &[u8], from: usize, to: usize) -> Span
    requires { (from ≤ to) × (to ≤ length s.now) }
    ensures { result ≡ moved from (trim_of (take (to - from) (drop from s.now))) }
{
    let part = trim(&s[from..to]);
    Span {
        from: from + part.from,
        to: from + part.to,
    }
}
