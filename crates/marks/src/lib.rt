// The marks that are written before a record, column by column: k counts the columns from 0, and m is the column, from 1, of the mark that
// waits (0: none).
#![tactic(auto)]

ghost use Rattle.std.specs.Prelude.{◌≡◌, ◌&&◌, ◌+◌, ◌<◌, eqb};
ghost use Rattle.page.specs.Tables.{columns, column_at};
ghost use Rattle.output.specs.Put.{Puts};
ghost use Rattle.copies.specs.Changed.{strips, field_of};
ghost use Rattle.copies.specs.Parts.{marked_by, mark_by, marks_form};

use copies::{Change, Plan};
use frames::put_mark;
use output::Output;
use tables::{find_width, is_text};

// Is the text of a column marked in what is written? `m` is the column of the mark that waits, from 1, or 0: `marked_by` has the number.
#[tactic(auto, unfolding(copies::specs::Parts::marked_by))]
fn is_marked(t: usize, k: usize, m: u64, plan: Plan<'_>) -> bool
    requires { k < 65536 }
    ensures { result ≡ marked_by (strips plan.entry.change) (field_of plan.entry.change) m (k + 1) (column_at t k) }
{
    match plan.change {
        Change::Nothing => m == k as u64 + 1 && is_text(t, k),
        Change::Strip => false,
        Change::Fill(fill) => fill.field == k + 1 || m == k as u64 + 1 && is_text(t, k),
    }
}

fn put_mark_of(out: &mut Output<'_>, t: usize, k: usize, m: u64, plan: Plan<'_>)
    requires { k < 65536 }
    ensures { Puts out.old
        (mark_by plan.entry.ends (strips plan.entry.change) (field_of plan.entry.change) m (k + 1) (column_at t k)) out.new }
{
    if is_marked(t, k, m, plan) {
        put_mark(out, plan.ends, k as u64 + 1);
    }
}

// Is nothing marked: does no mark wait, and is no field filled?
pub fn is_plain(m: u64, plan: Plan<'_>) -> bool
    ensures { result ≡ (eqb m 0 && eqb (field_of plan.entry.change) 0) }
{
    match plan.change {
        Change::Nothing | Change::Strip => m == 0,
        Change::Fill(fill) => m == 0 && fill.field == 0,
    }
}

// "marks stand directly before their record"
pub fn put_marks(out: &mut Output<'_>, t: usize, m: u64, plan: Plan<'_>)
    ensures { Puts out.old
        (marks_form plan.entry.ends (strips plan.entry.change) (field_of plan.entry.change) m 1 (columns t)) out.new }
{
    if is_plain(m, plan) {
        return;
    }
    for k in 0..find_width(t) {
        put_mark_of(out, t, k, m, plan);
    }
}
