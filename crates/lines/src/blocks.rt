// Bytes that are tested several at a time: no test branches, so that many bytes are tested at once.
ghost use Rattle.std.specs.Prelude.{◌≡◌, Bool, ℕ, ◌+◌, ◌≤◌, length, take, drop};
ghost use Rattle.page.specs.Bytes.{all};
ghost use Rattle.page.specs.Lines.{allowed};
ghost use Rattle.lines.specs.Lines.{no_lf};

use crate::content::is_allowed;

// A test of a byte.
pub trait Test {
    ghost passed: { Self → ℕ → Bool };

    fn passes(&self, b: u8) -> bool
        ensures { result ≡ passed self.now b };
}

// A byte other than LF.
#[derive(Clone, Copy)]
pub struct Open;

impl Test for Open {
    ghost passed = { λ _ b. no_lf b };

    fn passes(&self, b: u8) -> bool {
        b != 10
    }
}

// A byte that a line may have.
#[derive(Clone, Copy)]
pub struct Allowed {
    pub wide: bool,
}

impl Test for Allowed {
    ghost passed = { λ t b. allowed t.wide b };

    fn passes(&self, b: u8) -> bool {
        is_allowed(b, self.wide)
    }
}

fn pass_four<T: Test>(t: &T, s: &[u8], at: usize) -> bool
    requires { at + 4 ≤ length s.now }
    ensures { result ≡ all (T.passed t.now) (take 4 (drop at s.now)) }
{
    t.passes(s[at]) & t.passes(s[at + 1]) & t.passes(s[at + 2]) & t.passes(s[at + 3])
}

// Do the sixteen bytes from a place on pass?
pub fn pass_block<T: Test>(t: &T, s: &[u8], at: usize) -> bool
    requires { at + 16 ≤ length s.now }
    ensures { result ≡ all (T.passed t.now) (take 16 (drop at s.now)) }
{
    pass_four(t, s, at)
        & pass_four(t, s, at + 4)
        & pass_four(t, s, at + 8)
        & pass_four(t, s, at + 12)
}
