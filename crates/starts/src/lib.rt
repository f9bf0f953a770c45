// Where the fields of a record begin in what stands after its line's first `;`, from the left: for one who asks for them by column.
#![tactic(auto)]

ghost use Rattle.std.specs.Prelude.{◌≡◌, ℕ, ◌<◌, get_or};
ghost use Rattle.page.specs.Tables.{width};
ghost use Rattle.page.specs.Places.{field_place};

use tables::{WIDEST, find_width};

pub fn find_starts(w: &[u8], t: usize) -> [usize; WIDEST]
    ensures { (p : ℕ) → p < width t → get_or result p 0 ≡ field_place p 0 w.now }
{
    let mut starts = [0; WIDEST];
    let mut at = 0;
    for k in 0..find_width(t) {
        starts[k] = at;
        at = commands::field_end(w, at) + 1;
    }
    starts
}
