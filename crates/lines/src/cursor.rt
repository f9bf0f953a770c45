// The line cursor, a struct by value, whose method hands back the line's span and the moved cursor: the iterator goes by it.
ghost use Rattle.std.specs.Prelude.{◌≡◌};
ghost use Rattle.lines.specs.Lines.{line_at};

use crate::ends::line_end;
use page::Span;

// A place in a file's bytes.
#[derive(Clone, Copy)]
pub struct Cursor {
    pub at: usize,
}

// A whole line, and the cursor behind it.
#[derive(Clone, Copy)]
pub struct Walked {
    pub span: Span,
    pub next: Cursor,
}

impl Cursor {
    // The line at a cursor; nothing at the end, and past it.
    pub fn line(self, s: &[u8]) -> Walked
        ensures { result ≡ line_at s.now self.at }
    {
        let at = self.at;
        let n = s.len();
        if at < n {
            let e = line_end(s, at);
            return Walked {
                span: Span { from: at, to: e },
                next: Cursor { at: e },
            };
        }
        Walked {
            span: Span { from: n, to: n },
            next: Cursor { at: n },
        }
    }
}
