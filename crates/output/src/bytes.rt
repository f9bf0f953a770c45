// Single bytes and runs of bytes.
ghost use Rattle.std.specs.Prelude.{◌≡◌, [], ◌∷◌};
ghost use Rattle.std.proofs.lemmas.List.Edits.{sets};
ghost use Rattle.page.specs.Bytes.{bytes};
ghost use Rattle.page.specs.Form.{line_end};
ghost use Rattle.output.specs.Put.{Puts};

use page::LineEnd;

// Lent output, and the place of what is put next. Bytes past the room are only counted, so with no room at all a form is measured.
#[derive(Drop)]
pub struct Output<'a> {
    pub room: &'a mut [u8],
    pub at: usize,
}

// As many of the bytes as the room takes.
// No `copy_from_slice`: an archive for C would need `memmove` of who links it, where this loop needs none.
fn copy_clipped(room: &mut [u8], at: usize, s: &[u8])
    ensures { room.new ≡ sets room.old at s.now }
{
    if at < room.len() {
        let fit = s.len().min(room.len() - at);
        for i in 0..fit {
            room[at + i] = s[i];
        }
    }
}

impl Output<'_> {
    pub fn put_byte(&mut self, b: u8)
        ensures { Puts self.old (b ∷ []) self.new }
    {
        if self.at < self.room.len() {
            self.room[self.at] = b;
        }
        self.at = self.at.saturating_add(1);
    }

    pub fn put_bytes(&mut self, s: &[u8])
        ensures { Puts self.old s.now self.new }
    {
        copy_clipped(self.room, self.at, s);
        self.at = self.at.saturating_add(s.len());
    }

    // "One space after each separating `;`"
    #[tactic(auto, unfolding(page::specs::Bytes::bytes))]
    pub fn put_separator(&mut self)
        ensures { Puts self.old (bytes "; ") self.new }
    {
        self.put_bytes(b"; ");
    }

    // "Each line ends in LF": every written line's end is put here.
    #[tactic(auto, unfolding(page::specs::Form::line_end))]
    pub fn put_line_end(&mut self, ends: LineEnd)
        ensures { Puts self.old (line_end ends) self.new }
    {
        match ends {
            LineEnd::Lf => self.put_bytes(b"\n"),
        }
    }
}
