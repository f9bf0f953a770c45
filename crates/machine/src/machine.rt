// The machine of a section: what each line leads to.
ghost use Rattle.std.specs.Prelude.{◌≡◌, ◌&&◌, ◌+◌, ◌<◌, eqb, Err, Ok};
ghost use Rattle.commands.specs.Commands.{code};
ghost use Rattle.page.specs.Lines.{content, rest, Rec};
ghost use Rattle.page.specs.Fields.{fields};
ghost use Rattle.page.specs.Marks.{remark_of};
ghost use Rattle.page.specs.Section.{choose, tbl_step, frm_step, rec_step, mark_step, com_step, line_step, content_step, step};
ghost use Rattle.page.specs.declared.Phase.TheVariants as P;
ghost use Rattle.arrangement.specs.Orders.{held, Orderly, Stands};
ghost use Rattle.machine.specs.Carries.{records_in, order_at, Carries, Found, Carried};
ghost use Rattle.machine.specs.Moves.{phase_of};
ghost use Rattle.machine.specs.declared.machine.Moved.{Moved};

use commands::Command;
use counts::step_end;
use judging::judge_record;
use page::{Phase, Remark};
use tables::{TABLES, WIDEST};

// "`tbl` 10, 7"
pub fn step_tbl(w: &[u8]) -> Result<Phase, u32>
    ensures { result ≡ tbl_step (fields w.now) }
{
    if commands::count_fields(w) != 1 {
        return Err(10);
    }
    let t = names::find_table(commands::field_at(w, 0));
    if t < TABLES {
        Ok(Phase::Atr(t))
    } else {
        Err(7)
    }
}

// "`atr` 8"
pub fn step_atr(t: usize, found: bool) -> Result<Phase, u32>
    ensures { result ≡ choose found (Ok (P.Frm t)) (Err 8) }
{
    if found { Ok(Phase::Frm(t)) } else { Err(8) }
}

// "`frm` 9"
pub fn step_frm(w: &[u8], t: usize, o: &[u8; WIDEST]) -> Result<Phase, u32>
    requires { Orderly o.now }
    ensures { result ≡ frm_step t (held t o.now) (fields w.now) }
{
    if names::formats_match(w, t, o) {
        Ok(Phase::Rows(t, 0, 0))
    } else {
        Err(9)
    }
}

// A record takes the mark that waits with it.
pub fn step_rec(w: &[u8], t: usize, o: &[u8; WIDEST], m: u64, n: usize) -> Result<Phase, u32>
    requires { Stands t o.now × (n + 1 < 18446744073709551616) }
    ensures { result ≡ rec_step t (held t o.now) m n (fields w.now) }
{
    match judge_record(w, t, o, m) {
        0 => Ok(Phase::Rows(t, 0, n + 1)),
        v => Err(v),
    }
}

// "A mark that is unreadable, not allowed, not rising, before `frm` or after `end` is 15 at its own line."
pub fn step_mark(p: Phase, o: &[u8; WIDEST], i: u64) -> Result<Phase, u32>
    requires { Carries p o.now }
    ensures { result ≡ mark_step p (order_at p o.now) i }
{
    match p {
        Phase::Rows(t, m, n) => {
            if arrangement::may_mark(t, o, i) && m < i {
                Ok(Phase::Rows(t, i, n))
            } else {
                Err(15)
            }
        }
        Phase::Tbl | Phase::Atr(_) | Phase::Frm(_) | Phase::Ended(_, _) => Err(15),
    }
}

pub fn step_com(w: &[u8], p: Phase, o: &[u8; WIDEST]) -> Result<Phase, u32>
    requires { Carries p o.now }
    ensures { result ≡ com_step p (order_at p o.now) (remark_of w.now) }
{
    match quoted::read_remark(w) {
        Remark::Comment => Ok(p),
        Remark::Unreadable => Err(15),
        Remark::Mark(i) => step_mark(p, o, i),
    }
}

fn step_rows(
    w: &[u8],
    t: usize,
    o: &[u8; WIDEST],
    m: u64,
    n: usize,
    k: Command,
) -> Result<Phase, u32>
    requires { Stands t o.now × (n + 1 < 18446744073709551616) }
    ensures { result ≡ line_step (P.Rows t m n) (held t o.now) (code k) w.now }
{
    match k {
        Command::Rec => step_rec(w, t, o, m, n),
        Command::End => step_end(w, t, m, n),
        _ => Err(6),
    }
}

// A line of a known command k, other than `com`, with w after its first `;`: "known command out of its order" is 6.
pub fn step_line(
    w: &[u8],
    p: Phase,
    o: &[u8; WIDEST],
    found: bool,
    k: Command,
) -> Result<Phase, u32>
    requires { Carries p o.now × (records_in p + 1 < 18446744073709551616) × Found p w.now found }
    ensures { result ≡ line_step p (order_at p o.now) (code k) w.now }
{
    match (p, k) {
        (Phase::Tbl, Command::Tbl) => step_tbl(w),
        (Phase::Atr(t), Command::Atr) => step_atr(t, found),
        (Phase::Frm(t), Command::Frm) => step_frm(w, t, o),
        (Phase::Rows(t, m, n), _) => step_rows(w, t, o, m, n, k),
        _ => Err(6),
    }
}

// "in `rec` lines under ISO8859-1 also every byte 161..255"
fn is_wide(latin: bool, k: Command) -> bool
    ensures { result ≡ (latin && eqb (code k) Rec) }
{
    latin && k == Command::Rec
}

// "in that line the first of 4, 5, 6, then" its command's own: c is the line's content.
pub fn step_content(
    c: &[u8],
    p: Phase,
    o: &[u8; WIDEST],
    found: bool,
    latin: bool,
) -> Result<Phase, u32>
    requires { Carries p o.now × (records_in p + 1 < 18446744073709551616) × Found p (rest c.now) found }
    ensures { result ≡ content_step latin p (order_at p o.now) c.now }
{
    let k = Command::of(c);
    if !lines::all_allowed(c, is_wide(latin, k)) {
        return Err(4);
    }
    if lines::is_blank(c) {
        return Ok(p);
    }
    if !k.is_known() {
        return Err(5);
    }
    let w = lines::rest_of(c);
    if k == Command::Com {
        return step_com(w, p, o);
    }
    step_line(w, p, o, found, k)
}

// What a line leads to, and which column stands where after it.
#[derive(Clone, Copy)]
pub struct Moved {
    pub phase: Phase,
    pub order: [u8; WIDEST],
}

// "The reading of `atr` must now say which column stands where": where that line is due, a line's names are read, and once.
pub fn step(l: &[u8], p: Phase, o: [u8; WIDEST], latin: bool) -> Result<Moved, u32>
    requires { Carries p o × (records_in p + 1 < 18446744073709551616) }
    ensures { (phase_of result ≡ step latin p (order_at p o) l.now)
        × ((m : Moved) → result ≡ Ok m → Carried p m.phase (order_at p o) (content l.now) m.order) }
{
    let c = lines::content_of(l);
    if let Phase::Atr(t) = p {
        let arranged = names::arrange(lines::rest_of(c), t);
        let phase = step_content(c, p, &o, arranged.is_ok(), latin)?;
        let stated = arranged.unwrap_or(o);
        return Ok(Moved {
            phase,
            order: stated,
        });
    }
    let phase = step_content(c, p, &o, false, latin)?;
    Ok(Moved { phase, order: o })
}
