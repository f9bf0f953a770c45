// The parts of a record that stand as they are written: each is copied from its place in the file to its column's. w is what stands
// after the record's first `;`, its fields in the order o.
#![tactic(auto)]

ghost use Rattle.std.specs.Prelude.{◌≡◌, ◌∷◌, ◌-◌, ◌≤◌, length, take, drop, IfSome};
ghost use Rattle.page.specs.Fields.{fields};
ghost use Rattle.page.specs.Tables.{width};
ghost use Rattle.page.specs.Order.{by_column};
ghost use Rattle.page.specs.Form.{separated};
ghost use Rattle.output.specs.Put.{Puts};
ghost use Rattle.arrangement.specs.Orders.{held, Stands};
ghost use Rattle.parts.specs.Parted.{Parted};

use copies::written_end;
use output::Output;
use page::Span;
use tables::{WIDEST, find_width};

// If all fields stand as they are written, where they stand, with the space before them, by column.
pub fn find_parts(w: &[u8], t: usize, o: &[u8; WIDEST]) -> Option<[Span; WIDEST]>
    requires { Stands t o.now × (length (fields w.now) ≡ width t) }
    ensures { IfSome result (λ parts. Parted t (held t o.now) w.now parts) }
{
    let mut parts = [Span { from: 0, to: 0 }; WIDEST];
    let mut at = 0;
    for k in 0..find_width(t) {
        let to = written_end(w, at)?;
        parts[o[k] as usize] = Span { from: at, to };
        at = to + 1;
    }
    Some(parts)
}

fn put_part(out: &mut Output<'_>, w: &[u8], part: Span)
    requires { (part.from ≤ part.to) × (part.to ≤ length w.now) }
    ensures { Puts out.old (59 ∷ take (part.to - part.from) (drop part.from w.now)) out.new }
{
    out.put_byte(59);
    out.put_bytes(&w[part.from..part.to]);
}

pub fn put_parts(out: &mut Output<'_>, w: &[u8], t: usize, o: &[u8; WIDEST], parts: &[Span; WIDEST])
    requires { Stands t o.now
        × (length (fields w.now) ≡ width t)
        × Parted t (held t o.now) w.now parts.now }
    ensures { Puts out.old (separated (by_column (held t o.now) (fields w.now))) out.new }
{
    for k in 0..find_width(t) {
        put_part(out, w, parts[k]);
    }
}
