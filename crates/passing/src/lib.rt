// The records of a section that follow one another, passed without asking the machine: a section is nearly all records, and nearly every
// one passes.
#![tactic(auto)]

ghost use Rattle.std.specs.Prelude.{◌≡◌, true, ℕ, ◌+◌, ◌≤◌, length, drop, Ok};
ghost use Rattle.page.specs.Lines.{lines};
ghost use Rattle.page.specs.Section.{content_step, step, run};
ghost use Rattle.page.specs.declared.Phase.TheVariants as P;
ghost use Rattle.arrangement.specs.Orders.{held, Stands};

use commands::Command;
use lines::lines_from;
use tables::WIDEST;

// Where the first line stands that was not passed, how many were, and the mark that waits there.
#[derive(Clone, Copy)]
pub struct Passed {
    pub at: usize,
    pub count: usize,
    pub mark: u64,
}

// Whether any other content is a record's, and that passes.
fn passes_other(c: &[u8], t: usize, o: &[u8; WIDEST], m: u64, latin: bool) -> bool
    requires { Stands t o.now }
    ensures { result ≡ true → (n : ℕ) → content_step latin (P.Rows t m n) (held t o.now) c.now ≡ Ok (P.Rows t 0 (n + 1)) }
{
    Command::of(c) == Command::Rec
        && lines::all_allowed(&c[..lines::find_semicolon(c)], latin)
        && judging::passes(lines::rest_of(c), t, o, m, latin)
}

// Whether a line is a record that passes. The content of nearly every one begins `rec;`.
fn passes_line(l: &[u8], t: usize, o: &[u8; WIDEST], m: u64, latin: bool) -> bool
    requires { Stands t o.now }
    ensures { result ≡ true → (n : ℕ) → step latin (P.Rows t m n) (held t o.now) l.now ≡ Ok (P.Rows t 0 (n + 1)) }
{
    match lines::content_of(l) {
        [b'r', b'e', b'c', b';', w @ ..] => judging::passes(w, t, o, m, latin),
        c => passes_other(c, t, o, m, latin),
    }
}

// From a place on, where a mark of field m waits.
pub fn pass_records(
    s: &[u8],
    from: usize,
    t: usize,
    o: &[u8; WIDEST],
    m: u64,
    latin: bool,
) -> Passed
    requires { (from ≤ length s.now) × Stands t o.now }
    ensures { (from + result.count ≤ result.at) × (result.at ≤ length s.now)
        × ((n k : ℕ) → run latin (P.Rows t m n) (held t o.now) k (lines (drop from s.now))
        ≡ run latin (P.Rows t result.mark (n + result.count)) (held t o.now) (k + result.count) (lines (drop result.at s.now))) }
{
    let mut mark = m;
    let mut count = 0;
    for line in lines_from(s, from) {
        if !passes_line(line.bytes, t, o, mark, latin) {
            return Passed {
                at: line.at,
                count,
                mark,
            };
        }
        mark = 0;
        count += 1;
    }
    Passed {
        at: s.len(),
        count,
        mark,
    }
}
