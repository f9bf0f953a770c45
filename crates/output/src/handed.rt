// A form into lent output, whole or not at all.
ghost use Rattle.std.specs.Prelude.{◌≡◌};
ghost use Rattle.page.specs.Bytes.{Bytes};
ghost use Rattle.output.specs.Put.{Puts, Wrote};

use crate::bytes::Output;
use crate::room::refuse_room;
use page::Refusal;

// What puts a form.
pub trait Form {
    ghost bytes: { Self → Bytes };

    ghost ready: { Self → Type 0 };

    fn put(&self, out: &mut Output<'_>)
        requires { ready self.now }
        ensures { Puts out.old (bytes self.now) out.new };
}

// At the front of `out`, unless something refuses it: the measuring pass is the writing pass with nothing lent. `refusal` has number 0 for
// nothing, as `Wrote` has it.
pub fn put_whole<F: Form>(out: &mut [u8], refusal: Refusal, form: &F) -> Result<usize, Refusal>
    requires { refusal.number ≡ 0 → F.ready form.now }
    ensures { Wrote refusal (F.bytes form.now) out.old out.new result }
{
    if refusal.number != 0 {
        return Err(refusal);
    }
    let mut measured = Output {
        room: &mut [],
        at: 0,
    };
    form.put(&mut measured);
    refuse_room(measured.at, out.len())?;
    let mut written = Output { room: out, at: 0 };
    form.put(&mut written);
    Ok(written.at)
}
