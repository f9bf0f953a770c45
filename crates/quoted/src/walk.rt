// A text field read where it stands in a line, in one walk: its characters, its doubled quotes, its closing quote and its size. `w` is what
// stands after the line's first `;`. A text after at most one space, with nothing after its closing quote, as nearly all are, is met so.
ghost use Rattle.std.specs.Prelude.{◌≡◌, true, false, ◌&&◌, ◌+◌, ◌-◌, ◌≤◌, ◌<◌, eqb, ltb, length, take, drop, get_or, IfSome, Some};
ghost use Rattle.page.specs.Bytes.{all};
ghost use Rattle.page.specs.Lines.{allowed};
ghost use Rattle.page.specs.Fields.{body_of, field_size, text_of};
ghost use Rattle.page.specs.Places.{span_from};
ghost use Rattle.digits.specs.Runs.{field_from};
ghost use Rattle.quoted.specs.Sizes.{size_of};

use digits::{ends_at, skip_space};
use lines::is_allowed;

// What follows an opening quote, as a text of allowed bytes: where it ends, after its closing quote, and its size.
#[derive(Clone, Copy)]
struct Body {
    end: usize,
    size: usize,
}

// A text field that is met so: where it begins, at its opening quote, where it ends, and its size.
#[derive(Clone, Copy)]
pub struct Met {
    pub from: usize,
    pub end: usize,
    pub size: usize,
}

fn is_quote(w: &[u8], at: usize) -> bool
    ensures { result ≡ (ltb at (length w.now) && eqb (get_or w.now at 0) 34) }
{
    at < w.len() && w[at] == 34
}

fn walk_body(w: &[u8], from: usize, wide: bool) -> Option<Body>
    requires { from ≤ length w.now }
    ensures { IfSome result (λ b. (from < b.end) × (b.end ≤ length w.now)
        × (size_of (body_of false (take (b.end - from) (drop from w.now))) ≡ Some b.size)
        × (field_size true (drop from w.now) ≡ b.end - from + field_size false (drop b.end w.now))
        × (all (allowed wide) (take (b.end - from) (drop from w.now)) ≡ true)) }
{
    let mut size: usize = 0;
    let mut i = from;
    // No `for`: a doubled quote is passed in one step of two.
    while i < w.len() {
        let b = w[i];
        if b == 34 {
            let end = i + 1;
            if !is_quote(w, end) {
                return Some(Body { end, size });
            }
            i = end + 1;
            size += 1; // the pair
        } else {
            if !is_allowed(b, wide) {
                return None;
            }
            i += 1;
            size += 1;
        }
    }
    None
}

// The text field that begins at a place. `wide`: the line may hold bytes 161..255.
pub fn text_at(w: &[u8], at: usize, wide: bool) -> Option<Met>
    ensures { IfSome result (λ t. (t.end ≡ at + field_size false (drop at w.now))
        × (t.from ≤ t.end) × (t.end ≤ length w.now)
        × (t.from ≡ (span_from w.now at).from)
        × (field_from w.now at ≡ take (t.end - t.from) (drop t.from w.now))
        × (size_of (text_of (take (t.end - t.from) (drop t.from w.now))) ≡ Some t.size)
        × (all (allowed wide) (take (t.end - at) (drop at w.now)) ≡ true)) }
{
    if w.len() <= at {
        return None;
    }
    let from = skip_space(w, at);
    if !is_quote(w, from) {
        return None;
    }
    let body = walk_body(w, from + 1, wide)?;
    if !ends_at(w, body.end) {
        return None;
    }
    Some(Met {
        from,
        end: body.end,
        size: body.size,
    })
}
