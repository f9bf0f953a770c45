// A record's fields against the columns of its table: `w` is what stands after its line's first `;`.
ghost use Rattle.std.specs.Prelude.{◌≡◌, true, ◌&&◌, ◌≤◌, eqb, length};
ghost use Rattle.page.specs.Bytes.{all};
ghost use Rattle.page.specs.Lines.{allowed};
ghost use Rattle.page.specs.Fields.{fields};
ghost use Rattle.page.specs.Tables.{width};
ghost use Rattle.page.specs.Section.{empty_marked, rec_verdict};
ghost use Rattle.arrangement.specs.Orders.{held, Stands};
ghost use Rattle.judging.specs.Judging.{Judged};
ghost use Rattle.judging.specs.Walked.{Tells, Found};

use page::{Column, Field};
use rules::judge_rules;
use tables::{WIDEST, find_column, find_width};

// What one walk over a record's fields finds, if none is wrong: whether they are known to be as many as the columns, whether all bytes are
// known to be allowed, and a number of each, by column.
#[derive(Clone, Copy)]
struct Judgement {
    whole: bool,
    clean: bool,
    numbers: [u64; WIDEST],
}

// What a field that is not wrong says: its value if it is a number or its size if it is a text, where it ends, and whether its bytes are known
// to be allowed.
#[derive(Clone, Copy)]
struct Told {
    value: u64,
    end: usize,
    clean: bool,
}

// The field that begins at a place of w; the number of what is wrong with it.
fn judge_field(w: &[u8], at: usize, column: Column, wide: bool) -> Result<Told, u32>
    requires { at ≤ length w.now }
    ensures { Tells wide column w.now at result }
{
    let r = fields::read_field(w, at, column, wide);
    let value = match r.field {
        Field::Text(sp) => (sp.to - sp.from) as u64,
        Field::Number(n) => n,
        Field::Missing => 0,
        Field::Refused(v) => return Err(v),
    };
    Ok(Told {
        value,
        end: r.end,
        clean: r.clean,
    })
}

// "each field from the left (11 or 12, then 13)", as the columns stand.
fn judge_fields(w: &[u8], t: usize, o: &[u8; WIDEST], wide: bool) -> Result<Judgement, u32>
    requires { Stands t o.now }
    ensures { Found wide t (held t o.now) w.now result }
{
    let mut numbers = [0; WIDEST];
    let mut clean = true;
    let mut at = 0;
    for k in 0..find_width(t) {
        if w.len() < at {
            return Ok(Judgement {
                whole: false,
                clean: false,
                numbers,
            });
        }
        let c = o[k] as usize;
        let told = judge_field(w, at, find_column(t, c), wide)?;
        numbers[c] = told.value;
        clean = clean & told.clean;
        at = told.end + 1;
    }
    let whole = w.len() < at;
    Ok(Judgement {
        whole,
        clean: clean & whole,
        numbers,
    })
}

// Whether all bytes of w are allowed; `known`: they are known to be.
fn is_clean(w: &[u8], wide: bool, known: bool) -> bool
    requires { known ≡ true → all (allowed wide) w.now ≡ true }
    ensures { result ≡ all (allowed wide) w.now }
{
    known || lines::all_allowed(w, wide)
}

// Whether a record has a field for each column of its table; `whole`: that is known.
fn has_width(w: &[u8], t: usize, whole: bool) -> bool
    requires { whole ≡ true → length (fields w.now) ≡ width t }
    ensures { result ≡ eqb (length (fields w.now)) (width t) }
{
    whole || commands::count_fields(w) == find_width(t)
}

// "15 for a marked empty text": m is the field of the mark that waits, 0 if none does.
pub fn marks_empty(w: &[u8], m: u64) -> bool
    ensures { result ≡ empty_marked m (fields w.now) }
{
    m != 0 && quoted::is_empty_text(commands::field_at(w, m as usize - 1))
}

// "`rec` 10, each field from the left, 14, 15 for a marked empty text"; "25, wrong combination, after 14 and before 15": of a record none of
// whose fields is wrong.
fn judge_rest(w: &[u8], t: usize, o: &[u8; WIDEST], m: u64, j: &Judgement) -> u32
    requires { Judged t (held t o.now) (fields w.now) 0 j.now.whole j.now.numbers }
    ensures { result ≡ rec_verdict t (held t o.now) m (fields w.now) }
{
    if !has_width(w, t, j.whole) {
        return 10;
    }
    let broken = judge_rules(&j.numbers, t);
    if broken != 0 {
        return broken;
    }
    if marks_empty(w, m) { 15 } else { 0 }
}

// A number, and 0 for none, as `rec_verdict` of the definitions has it.
pub fn judge_record(w: &[u8], t: usize, o: &[u8; WIDEST], m: u64) -> u32
    requires { Stands t o.now }
    ensures { result ≡ rec_verdict t (held t o.now) m (fields w.now) }
{
    match judge_fields(w, t, o, true) {
        Ok(j) => judge_rest(w, t, o, m, &j),
        Err(v) => { if has_width(w, t, false) { v } else { 10 } }
    }
}

// Whether nothing is wrong with a record, and all its bytes are allowed. `wide`: its line may hold bytes 161..255.
pub fn passes(w: &[u8], t: usize, o: &[u8; WIDEST], m: u64, wide: bool) -> bool
    requires { Stands t o.now }
    ensures { result ≡ (eqb (rec_verdict t (held t o.now) m (fields w.now)) 0 && all (allowed wide) w.now) }
{
    match judge_fields(w, t, o, wide) {
        Ok(j) => judge_rest(w, t, o, m, &j) == 0 && is_clean(w, wide, j.clean),
        Err(_) => false,
    }
}
