// One record of the written file: its marks, and its line. m is the column, from 1, of the mark that waits (0: none).
ghost use Rattle.std.specs.Prelude.{◌≡◌, true, length, IfSome};
ghost use Rattle.page.specs.Fields.{fields};
ghost use Rattle.page.specs.Tables.{columns, width};
ghost use Rattle.page.specs.Order.{listed_order, standing, by_column};
ghost use Rattle.page.specs.Section.{first_wrong, rec_verdict};
ghost use Rattle.output.specs.Put.{Puts};
ghost use Rattle.arrangement.specs.Orders.{held, Stands};
ghost use Rattle.copies.specs.Changed.{strips, field_of, text_of};
ghost use Rattle.copies.specs.Parts.{fields_form, Whole};
ghost use Rattle.copies.specs.Planned.{record_by};
ghost use Rattle.parts.specs.Parted.{Parted};
ghost use Rattle.records.specs.Row.{row};

use arrangement::column_in;
use copies::{Plan, all_written};
use entries::put_fields;
use frames::put_line;
use marks::{is_plain, put_marks};
use output::Output;
use page::Span;
use parts::{find_parts, put_parts};
use tables::WIDEST;

// Does a whole record stand as it is written, with no mark? Only in document 01's own order may it be copied.
fn is_kept(w: &[u8], listed: bool, m: u64, plan: Plan<'_>) -> bool
    ensures { result ≡ true → (listed ≡ true) × (m ≡ 0) × (field_of plan.entry.change ≡ 0) × Whole w.now }
{
    listed && is_plain(m, plan) && all_written(w)
}

// The parts of a record in another order that stand as they are written, with no mark: its fields may be copied one by one. In document
// 01's own order `is_kept` has asked already whether they stand so.
fn find_kept(
    w: &[u8],
    t: usize,
    o: &[u8; WIDEST],
    listed: bool,
    m: u64,
    plan: Plan<'_>,
) -> Option<[Span; WIDEST]>
    requires { Stands t o.now × (length (fields w.now) ≡ width t) }
    ensures { IfSome result (λ parts. (m ≡ 0) × (field_of plan.entry.change ≡ 0) × Parted t (held t o.now) w.now parts) }
{
    if listed || !is_plain(m, plan) {
        return None;
    }
    find_parts(w, t, o)
}

// The fields of a record, as `put_fields` puts them: copied, where they stand so.
fn put_values(
    out: &mut Output<'_>,
    w: &[u8],
    t: usize,
    o: &[u8; WIDEST],
    listed: bool,
    m: u64,
    plan: Plan<'_>,
)
    requires { Stands t o.now
        × (length (fields w.now) ≡ width t)
        × (first_wrong (standing t (held t o.now)) (fields w.now) ≡ 0) }
    ensures { Puts out.old
        (fields_form (strips plan.entry.change) (field_of plan.entry.change) (text_of plan.entry.change) m 1 (columns t) (by_column (held t o.now) (fields w.now)))
        out.new }
{
    match find_kept(w, t, o, listed, m, plan) {
        Some(parts) => put_parts(out, w, t, o, &parts),
        None => put_fields(out, w, t, o, m, plan.change),
    }
}

// A record that passed its rules, its fields in the order o, with the field of the mark that waits for it (0: none, a number as
// `rec_verdict` has it). `listed`: the order is known to be document 01's own.
pub fn put_record(
    out: &mut Output<'_>,
    w: &[u8],
    t: usize,
    o: &[u8; WIDEST],
    listed: bool,
    m: u64,
    plan: Plan<'_>,
)
    requires { Stands t o.now
        × (listed ≡ true → held t o.now ≡ listed_order t)
        × (rec_verdict t (held t o.now) m (fields w.now) ≡ 0) }
    ensures { Puts out.old (record_by plan.entry (row t (held t o.now) m w.now)) out.new }
{
    let i = column_in(o, t, m);
    if is_kept(w, listed, i, plan) {
        out.put_bytes(b"rec;");
        return put_line(out, plan.ends, w);
    }
    put_marks(out, t, i, plan);
    out.put_bytes(b"rec");
    put_values(out, w, t, o, listed, i, plan);
    out.put_line_end(plan.ends);
}
