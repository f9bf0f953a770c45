// The sections of a file, one after the other.
ghost use Rattle.std.specs.Prelude.{◌≡◌, ◌+◌, ◌-◌, ◌^◌, ◌<◌, length};
ghost use Rattle.std.specs.Iterator.{at_most};
ghost use Rattle.cut.specs.Walk.{Next};
ghost use Rattle.cut.specs.Sections.{GivesSection};

use crate::seek::{find_section, section_end};

// A section's bytes, and where it begins in the file.
#[derive(Clone, Copy)]
pub struct Section<'a> {
    pub at: usize,
    pub bytes: &'a [u8],
}

impl<'a> Section<'a> {
    // Where what stands behind it begins.
    pub fn end(&self) -> usize
        requires { self.now.at + length self.now.bytes.now < 2 ^ 64 }
        ensures { result ≡ self.now.at + length self.now.bytes.now }
    {
        self.at + self.bytes.len()
    }
}

// The sections of a file from a section's place on.
#[derive(Clone, Copy)]
pub struct Sections<'a> {
    bytes: &'a [u8],
    at: usize,
}

pub fn sections_of(s: &[u8]) -> Sections<'_>
    ensures bytes { result.bytes.now ≡ s.now }
    ensures at { Next s.now 0 result.at }
{
    Sections {
        bytes: s,
        at: find_section(s, 0),
    }
}

impl<'a> Iterator for Sections<'a> {
    type Item = Section<'a>;

    ghost next_gives = { GivesSection };

    ghost remaining = { λ x. at_most (length x.bytes.now - x.at) };

    fn next(&mut self) -> Option<Section<'a>> {
        let s = self.bytes;
        let at = self.at;
        if s.len() <= at {
            return None;
        }
        let to = section_end(s, at);
        self.at = find_section(s, to);
        Some(Section {
            at,
            bytes: &s[at..to],
        })
    }
}
