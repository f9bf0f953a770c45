// What a call hands out into lent room: a text's own bytes, and whose it is.
#![tactic(auto)]

ghost use Rattle.std.specs.Prelude.{◌≡◌, length};
ghost use Rattle.page.specs.Handing.{text_out, text_after};

use page::{Copied, Refusal};
use texts::hand_value;

// Field f of record r of section i, all from 1, with doubled quotes undone.
pub fn text(file: &[u8], i: usize, r: usize, f: usize, out: &mut [u8]) -> Result<Copied, Refusal>
    ensures { (result ≡ text_out file.now i r f (length out.old))
        × (out.new ≡ text_after file.now i r f out.old) }
{
    let v = lookups::value(file, i, r, f)?;
    hand_value(file, v, out)
}
