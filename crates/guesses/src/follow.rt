// A record that is soon found: near where the last one stood, or where it is guessed. A search that finds none says nothing.
ghost use Rattle.std.specs.Prelude.{◌≡◌, true, IfSome};
ghost use Rattle.page.specs.Lines.{lines};
ghost use Rattle.page.specs.File.{any};
ghost use Rattle.scans.specs.Scan.{bears};

use crate::guesses::{find_bits, find_slot};
use choices::Choice;
use keys::Key;
use lines::lines_from;
use scans::{bears_key, find_start};

// Where one stands among some lines from the one at a place on, and round again.
pub fn find_near(w: &[u8], at: usize, steps: usize, choice: Choice, key: Key) -> Option<usize>
    ensures { IfSome result (λ _. any (bears choice key.k) (lines w.now) ≡ true) }
{
    let mut from = find_start(w, at);
    for _ in 0..steps {
        let Some(line) = lines_from(w, from).next() else {
            from = 0;
            continue;
        };
        if bears_key(line.bytes, choice, key) {
            return Some(line.at);
        }
        from = line.end();
    }
    None
}

// Where one stands among the guesses for a hash.
pub fn find_guessed(w: &[u8], g: &[u32], h: u64, choice: Choice, key: Key) -> Option<usize>
    ensures { IfSome result (λ _. any (bears choice key.k) (lines w.now) ≡ true) }
{
    let bits = find_bits(h);
    let slot = find_slot(h, g.len());
    for &x in &g[slot..] {
        if x == 0 {
            return None;
        }
        if x / 16777216 == bits {
            let place = (x % 16777216) as usize;
            if let Some(at) = find_near(w, place, 1, choice, key) {
                return Some(at);
            }
        }
    }
    None
}
