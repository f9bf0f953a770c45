// A key read from a record's line: `w` is what stands after its first `;`.
ghost use Rattle.std.specs.Prelude.{◌≡◌, false, ◌+◌, ◌≤◌, eqb, length, drop};
ghost use Rattle.page.specs.Bytes.{pick};
ghost use Rattle.page.specs.Fields.{field_size, fields};
ghost use Rattle.page.specs.Section.{record_text};
ghost use Rattle.page.specs.Records.{own_bytes};
ghost use Rattle.doubling.specs.Raw.{undoubled};
ghost use Rattle.digits.specs.Runs.{field_from};
ghost use Rattle.keys.specs.Numbers.{push, packed, field_as, gathered};

use crate::key::{Key, PLACES};
use choices::Choice;
use page::{Column, Field};

// A field as a number, and where it ends.
#[derive(Clone, Copy)]
struct Taken {
    value: u64,
    end: usize,
}

fn put_byte(n: u64, b: u8) -> u64
    ensures { result ≡ push n b }
{
    if n < 72057594037927936 {
        n * 256 + u64::from(b)
    } else {
        n
    }
}

// A text of a key has at most six bytes, and stands for a number with its length in it: "a doubled quote inside stands for one".
fn pack_own(raw: &[u8]) -> u64
    ensures { result ≡ packed (undoubled false raw.now) }
{
    let mut met = false;
    let mut n = 1;
    for &b in raw {
        if met {
            met = false;
        } else {
            n = put_byte(n, b);
            met = b == b'"';
        }
    }
    n - 1
}

// A text of any size.
const WORDS: Column = Column {
    text: true,
    day: false,
    lo: 0,
    hi: u64::MAX,
    size: 0,
    primary: false,
    second: false,
    fillable: false,
    optional: false,
};

fn take_text(w: &[u8], at: usize) -> Taken
    requires { at ≤ length w.now }
    ensures { (result.end ≡ at + field_size false (drop at w.now))
        × (result.value ≡ packed (own_bytes (record_text (field_from w.now at)))) }
{
    let x = fields::read_field(w, at, WORDS, true);
    let Field::Text(sp) = x.field else {
        return Taken {
            value: 0,
            end: x.end,
        };
    };
    Taken {
        value: pack_own(&w[sp.from..sp.to]),
        end: x.end,
    }
}

// The field that begins at a place as a choice takes it; 0 where it does not. A kind stays the digit that a choice packs and
// `Numbers.gather` reads.
fn take_field(w: &[u8], at: usize, kind: u64) -> Taken
    requires { at ≤ length w.now }
    ensures { (result.end ≡ at + field_size false (drop at w.now))
        × (result.value ≡ pick (eqb kind 0) 0 (field_as kind (field_from w.now at))) }
{
    match kind {
        0 => Taken {
            value: 0,
            end: commands::field_end(w, at),
        },
        1 => {
            let c = digits::number_at(w, at);
            Taken {
                value: fields::worth(c.number),
                end: c.end,
            }
        }
        _ => take_text(w, at),
    }
}

// The fields of a choice, in one walk that ends at the last of them.
pub fn read_chosen(w: &[u8], choice: Choice) -> Key
    ensures { result.k ≡ gathered choice (fields w.now) }
{
    let mut k = [0; PLACES];
    let mut at = 0;
    let Choice {
        kinds: mut rest,
        mut slots,
    } = choice;
    // No `for`: the digits that are left say whether the walk goes on.
    while 0 < rest && at <= w.len() {
        let kind = rest % 4;
        let n = (slots % 8) as usize;
        let f = take_field(w, at, kind);
        if kind != 0 && n < PLACES {
            k[n] = f.value;
        }
        at = f.end + 1;
        rest /= 4;
        slots /= 8;
    }
    Key { k }
}
