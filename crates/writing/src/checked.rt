// Writing, stripping and filling into lent output, whole or not at all, where it is known what refuses them.
ghost use Rattle.std.specs.Prelude.{◌≡◌, length};
ghost use Rattle.page.specs.File.{file_refusal};
ghost use Rattle.page.specs.Model.{model_of};
ghost use Rattle.page.specs.Form.{form_of};
ghost use Rattle.page.specs.Writing.{put_of, put_after, write_of, write_after, strip_of, strip_after, fill_refusal, fill_form};
ghost use Rattle.output.specs.Put.{Wrote};
ghost use Rattle.copies.specs.Changed.{changed_model};

use crate::file::put_form;
use copies::{Change, Fill, Plan};
use output::{Form, Output, put_whole};
use page::{LineEnd, Refusal, Stays};

// What a file says, written by a plan.
#[derive(Clone, Copy)]
struct Planned<'a> {
    s: &'a [u8],
    plan: Plan<'a>,
}

impl Form for Planned<'_> {
    ghost bytes = { λ x. form_of x.plan.ends (changed_model x.plan (model_of x.s.now)) };

    ghost ready = { λ x. (file_refusal x.s.now).number ≡ 0 };

    fn put(&self, out: &mut Output<'_>) {
        put_form(out, self.s, self.plan);
    }
}

// The changed form at the front of `out`, unless something refuses it.
fn hand_form(
    out: &mut [u8],
    refusal: Refusal,
    s: &[u8],
    change: Change<'_>,
) -> Result<usize, Refusal>
    requires { refusal.number ≡ 0 → (file_refusal s.now).number ≡ 0 }
    ensures { Wrote refusal
        (form_of LineEnd.Lf (changed_model (record { ends = LineEnd.Lf; stays = Stays.All; change = change.entry }) (model_of s.now)))
        out.old out.new result }
{
    let plan = Plan {
        ends: LineEnd::Lf,
        stays: Stays::All,
        change,
    };
    put_whole(out, refusal, &Planned { s, plan })
}

// "Only a file with verdict 0 is written; else its verdict is given."
pub fn write_checked(s: &[u8], refusal: Refusal, out: &mut [u8]) -> Result<usize, Refusal>
    requires { refusal ≡ file_refusal s.now }
    ensures { (result ≡ write_of s.now (length out.old))
        × (out.new ≡ write_after s.now out.old) }
{
    hand_form(out, refusal, s, Change::Nothing)
}

// "Stripping gives the written form with marked texts empty and no marks."
pub fn strip_checked(s: &[u8], refusal: Refusal, out: &mut [u8]) -> Result<usize, Refusal>
    requires { refusal ≡ file_refusal s.now }
    ensures { (result ≡ strip_of s.now (length out.old))
        × (out.new ≡ strip_after s.now out.old) }
{
    hand_form(out, refusal, s, Change::Strip)
}

// The text is put in as it is: who calls has taken the spaces at its end off.
pub fn fill_checked(
    s: &[u8],
    refusal: Refusal,
    section: usize,
    entry: usize,
    field: usize,
    text: &[u8],
    out: &mut [u8],
) -> Result<usize, Refusal>
    requires { refusal ≡ fill_refusal s.now section entry field text.now }
    ensures { (result ≡ put_of (fill_refusal s.now section entry field text.now) (fill_form s.now section entry field text.now) (length out.old))
        × (out.new ≡ put_after (fill_refusal s.now section entry field text.now) (fill_form s.now section entry field text.now) out.old) }
{
    let fill = Fill {
        section,
        rec: entry,
        field,
        text,
    };
    hand_form(out, refusal, s, Change::Fill(fill))
}
