// A text's own bytes: "a doubled quote inside stands for one".
ghost use Rattle.std.specs.Prelude.{false};
ghost use Rattle.output.specs.Put.{Puts, Wrote};
ghost use Rattle.doubling.specs.Raw.{undoubled};

use output::{Form, Output, put_whole};
use page::Refusal;

// Of what stands between its quotes in the file.
pub fn put_own(out: &mut Output<'_>, raw: &[u8])
    ensures { Puts out.old (undoubled false raw.now) out.new }
{
    let mut met = false;
    for b in raw {
        if met {
            met = false;
        } else {
            out.put_byte(*b);
            met = *b == 34;
        }
    }
}

// A text that stands between its quotes as `raw`.
#[derive(Clone, Copy)]
struct Own<'a> {
    raw: &'a [u8],
}

impl Form for Own<'_> {
    ghost bytes = { λ x. undoubled false x.raw.now };

    ghost ready = { λ _. Unit };

    fn put(&self, out: &mut Output<'_>) {
        put_own(out, self.raw);
    }
}

// The same into the front of `out`, whole or not at all.
pub fn hand_own(out: &mut [u8], refusal: Refusal, raw: &[u8]) -> Result<usize, Refusal>
    ensures { Wrote refusal (undoubled false raw.now) out.old out.new result }
{
    put_whole(out, refusal, &Own { raw })
}
