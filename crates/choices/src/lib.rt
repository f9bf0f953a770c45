// Which fields of a line make a key or a reference, where its columns stand in an order. A loop over records asks for it once.
#![tactic(auto)]

ghost use Rattle.std.specs.Prelude.{◌≡◌, ℕ, ◌<◌, ◌≤◌, get_or};
ghost use Rattle.page.specs.Bytes.{pick};
ghost use Rattle.page.specs.Tables.{WIDEST};
ghost use Rattle.tables.specs.Keys.{by_key};
ghost use Rattle.choices.specs.Choices.{total, rank, choice_of, key_choice, refer_choice};
ghost use Rattle.arrangement.specs.Orders.{held, Orderly};

use tables::{WIDEST, find_key, find_reference, find_width, is_text};

// What a key takes of a field; the number of each is its digit in `kinds`.
#[derive(Clone, Copy)]
enum Kind {
    Other,
    Number,
    Text,
}

// A digit a place, from the left the lowest first, in one word each: a loop over records shifts it field by field and reads no memory. Of
// base 4 in kinds: what the key takes of the field. Of base 8 in slots: which of the key's numbers it is, by column.
#[derive(Clone, Copy)]
pub struct Choice {
    pub kinds: u64,
    pub slots: u64,
}

// What a key takes of a field, as its digit.
fn find_kind(taken: bool, text: bool) -> u64
    ensures { (result ≡ pick taken (pick text 2 1) 0) × (result ≤ 2) }
{
    let kind = match (taken, text) {
        (false, _) => Kind::Other,
        (true, false) => Kind::Number,
        (true, true) => Kind::Text,
    };
    kind as u64
}

// How many columns before each are taken.
fn rank_columns(taken: [bool; WIDEST]) -> [u64; WIDEST]
    ensures { (c : ℕ) → c < WIDEST → get_or result c 0 ≡ rank taken c }
{
    let mut ranks = [0; WIDEST];
    let mut n: u64 = 0;
    for c in 0..WIDEST {
        ranks[c] = n;
        n += taken[c] as u64;
    }
    ranks
}

fn choose_columns(t: usize, taken: [bool; WIDEST], o: &[u8; WIDEST]) -> Choice
    requires { Orderly o.now × (total taken ≤ 7) }
    ensures { result ≡ choice_of taken t (held t o.now) }
{
    let ranks = rank_columns(taken);
    let mut kinds: u64 = 0;
    let mut slots: u64 = 0;
    for k in (0..find_width(t)).rev() {
        let c = o[k] as usize;
        kinds = kinds * 4 + find_kind(taken[c], is_text(t, c));
        slots = slots * 8 + ranks[c];
    }
    Choice { kinds, slots }
}

// The primary key of table t, or its second one; no field if it has none.
pub fn choose_key(t: usize, second: bool, o: &[u8; WIDEST]) -> Choice
    requires { Orderly o.now }
    ensures { result ≡ key_choice (by_key second) t (held t o.now) }
{
    choose_columns(t, find_key(t, second), o)
}

// The fields of reference r of table t, from 0.
pub fn choose_reference(t: usize, r: usize, o: &[u8; WIDEST]) -> Choice
    requires { Orderly o.now }
    ensures { result ≡ refer_choice t r (held t o.now) }
{
    choose_columns(t, find_reference(t, r), o)
}
