// The lines of some bytes, one after the other.
ghost use Rattle.std.specs.Prelude.{◌≡◌, ◌+◌, ◌-◌, ◌^◌, ◌<◌, length};
ghost use Rattle.std.specs.Iterator.{at_most};
ghost use Rattle.lines.specs.Lines.{GivesLine};

use crate::cursor::Cursor;

// A whole line, and where it begins.
#[derive(Clone, Copy)]
pub struct Line<'a> {
    pub at: usize,
    pub bytes: &'a [u8],
}

impl<'a> Line<'a> {
    // Where the next line begins.
    pub fn end(&self) -> usize
        requires { self.now.at + length self.now.bytes.now < 2 ^ 64 }
        ensures { result ≡ self.now.at + length self.now.bytes.now }
    {
        self.at + self.bytes.len()
    }
}

// The lines of some bytes from a place on.
#[derive(Clone, Copy)]
pub struct Lines<'a> {
    bytes: &'a [u8],
    at: usize,
}

pub fn lines_of(s: &[u8]) -> Lines<'_>
    ensures bytes { result.bytes.now ≡ s.now }
    ensures at { result.at ≡ 0 }
{
    lines_from(s, 0)
}

// From the line at a place on; places are counted in the whole.
pub fn lines_from(s: &[u8], at: usize) -> Lines<'_>
    ensures bytes { result.bytes.now ≡ s.now }
    ensures at { result.at ≡ at }
{
    Lines { bytes: s, at }
}

impl<'a> Iterator for Lines<'a> {
    type Item = Line<'a>;

    ghost next_gives = { GivesLine };

    ghost remaining = { λ x. at_most (length x.bytes.now - x.at) };

    fn next(&mut self) -> Option<Line<'a>> {
        let s = self.bytes;
        let at = self.at;
        if s.len() <= at {
            return None;
        }
        let walked = Cursor { at }.line(s);
        self.at = walked.next.at;
        Some(Line {
            at,
            bytes: &s[at..walked.span.to],
        })
    }
}
