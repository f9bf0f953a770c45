// One section of the written file.
ghost use Rattle.std.specs.Prelude.{◌≡◌, true, [], ◌∷◌, ◌+◌, ◌<◌, length};
ghost use Rattle.page.specs.Lines.{lines};
ghost use Rattle.page.specs.Fields.{fields};
ghost use Rattle.page.specs.Order.{listed_order};
ghost use Rattle.page.specs.Section.{rec_verdict};
ghost use Rattle.output.specs.Put.{Puts};
ghost use Rattle.arrangement.specs.Orders.{held, Stands};
ghost use Rattle.copies.specs.Changed.{kept_records};
ghost use Rattle.copies.specs.Planned.{records_by, content_by};
ghost use Rattle.records.specs.Row.{row};
ghost use Rattle.recording.specs.Said.{rows_of, passes, passing, said};

use arrangement::is_listed;
use copies::{Plan, does_stay, plan_record};
use frames::{put_count_line, put_table_head};
use lines::lines_of;
use output::Output;
use records::put_record;
use tables::WIDEST;

// A record that passed its rules, after n that were written: if it stays, it is written. How many are written now. `listed`: the order o
// is known to be document 01's own.
fn put_staying(
    out: &mut Output<'_>,
    n: usize,
    w: &[u8],
    t: usize,
    o: &[u8; WIDEST],
    listed: bool,
    m: u64,
    plan: Plan<'_>,
) -> usize
    requires { Stands t o.now
        × (listed ≡ true → held t o.now ≡ listed_order t)
        × (rec_verdict t (held t o.now) m (fields w.now) ≡ 0)
        × (n < 18446744073709551615) }
    ensures form { Puts out.old (records_by plan.entry n (row t (held t o.now) m w.now ∷ [])) out.new }
    ensures count { result ≡ n + length (kept_records plan.entry.stays (row t (held t o.now) m w.now ∷ [])) }
{
    if does_stay(plan.stays) {
        put_record(out, w, t, o, listed, m, plan_record(plan, n));
        return n + 1;
    }
    n
}

// "records keep their order": s is the bytes of a section of table t, in the order o, whose records all passed their rules. How many were
// written.
fn put_records(out: &mut Output<'_>, s: &[u8], t: usize, o: &[u8; WIDEST], plan: Plan<'_>) -> usize
    requires { Stands t o.now × (passes t (held t o.now) 0 (lines s.now) ≡ true) }
    ensures form { Puts out.old (records_by plan.entry 0 (rows_of t (held t o.now) 0 (lines s.now))) out.new }
    ensures count { result ≡ length (kept_records plan.entry.stays (rows_of t (held t o.now) 0 (lines s.now))) }
{
    let listed = is_listed(o, t);
    let mut m = 0;
    let mut n = 0;
    for line in lines_of(s) {
        let x = lines::content_of(line.bytes);
        if commands::is_record(line.bytes) {
            n = put_staying(out, n, lines::rest_of(x), t, o, listed, m, plan);
            m = 0;
        } else {
            m = quoted::wait_on(x, m);
        }
    }
    n
}

// s is the bytes of a section whose records all passed their rules.
pub fn put_section(out: &mut Output<'_>, s: &[u8], plan: Plan<'_>)
    requires { (0 < length s.now) × (passing (lines s.now) ≡ true) }
    ensures { Puts out.old (content_by plan.entry (said (lines s.now))) out.new }
{
    let t = names::table_at(s, 0);
    put_table_head(out, plan.ends, t);
    let o = names::find_order(s, t);
    let n = put_records(out, s, t, &o, plan);
    put_count_line(out, plan.ends, b"end", n as u64);
}
