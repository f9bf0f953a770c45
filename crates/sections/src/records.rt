// The records from a place on, where they are due.
ghost use Rattle.std.specs.Prelude.{◌≡◌, ℕ, ◌+◌, ◌≤◌, length, drop};
ghost use Rattle.page.specs.Lines.{lines};
ghost use Rattle.page.specs.Section.{run};
ghost use Rattle.machine.specs.Carries.{records_in, order_at, Carries};

use page::Phase;
use passing::pass_records;
use tables::WIDEST;

// Where the first line stands that the machine is to be asked of, how many stand before it, and the phase then.
#[derive(Clone, Copy)]
pub struct Skipped {
    pub at: usize,
    pub count: usize,
    pub phase: Phase,
}

pub fn skip_records(s: &[u8], at: usize, p: Phase, o: &[u8; WIDEST], latin: bool) -> Skipped
    requires { (at ≤ length s.now) × (records_in p ≤ at) × Carries p o.now }
    ensures { (at + result.count ≤ result.at) × (result.at ≤ length s.now) × (records_in result.phase ≤ records_in p + result.count)
        × Carries result.phase o.now
        × ((n : ℕ) → run latin p (order_at p o.now) n (lines (drop at s.now))
        ≡ run latin result.phase (order_at result.phase o.now) (n + result.count) (lines (drop result.at s.now))) }
{
    if let Phase::Rows(t, m, k) = p {
        let r = pass_records(s, at, t, o, m, latin);
        return Skipped {
            at: r.at,
            count: r.count,
            phase: Phase::Rows(t, r.mark, k + r.count),
        };
    }
    Skipped {
        at,
        count: 0,
        phase: p,
    }
}
