// The first line of a section whose key stands before it, where keys do not rise.
ghost use Rattle.std.specs.Prelude.{◌≡◌, [], ◌<◌, MatchOption};
ghost use Rattle.page.specs.Lines.{lines};
ghost use Rattle.scans.specs.Scan.{again, first_line};

use choices::Choice;
use rounds::{Pass, count_rounds, sift_round};

// The number of the first line whose key stands before it, from 1. Each round looks only before the line found.
pub fn find_repeat(w: &[u8], choice: Choice) -> Option<usize>
    ensures { MatchOption result (first_line (again choice) [] 0 (lines w.now) ≡ 0) (λ n. (0 < n) × (first_line (again choice) [] 0 (lines w.now) ≡ n)) }
{
    let lanes = count_rounds(w);
    let size = w.len();
    let mut last = size;
    for lane in 0..lanes {
        let pass = Pass {
            choice,
            lane: u64::from(lane),
            lanes,
            last,
        };
        last = sift_round(w, pass);
    }
    if last < size { Some(last + 1) } else { None }
}
