// Where a line ends.
ghost use Rattle.std.specs.Prelude.{◌≡◌, ◌+◌, ◌≤◌, length, take, drop};
ghost use Rattle.page.specs.Bytes.{until};
ghost use Rattle.page.proofs.LineLaws.{line_size};
ghost use Rattle.lines.specs.Lines.{lf, Onward};

use crate::blocks::{Open, pass_block};

// A later place in the same line, past sixteen bytes and sixteen without an LF.
fn skip_blocks(s: &[u8], at: usize) -> usize
    requires { at ≤ length s.now }
    ensures { Onward s.now at result }
{
    let n = s.len();
    let mut i = at;
    // No `for`: the walk goes on only while sixteen bytes are left.
    while 16 <= n - i {
        if !pass_block(&Open, s, i) {
            return i;
        }
        i += 16;
    }
    i
}

// Where the first LF stands, or the length.
fn find_lf(s: &[u8]) -> usize
    ensures { result ≡ until lf s.now }
{
    s.iter().position(|b| *b == 10).unwrap_or(s.len())
}

// Where the line at a place ends: after its LF, or where the bytes end.
pub fn line_end(s: &[u8], at: usize) -> usize
    requires { at ≤ length s.now }
    ensures { result ≡ at + line_size (drop at s.now) }
{
    let from = skip_blocks(s, at);
    let lf = from + find_lf(&s[from..]);
    s.len().min(lf + 1)
}
