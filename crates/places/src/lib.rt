// Where the records of a section stand, and the mark that waits for each.
#![tactic(auto)]

ghost use Rattle.std.specs.Prelude.{◌≡◌, ◌+◌, ◌-◌, ◌<◌, ◌≤◌, length, take, drop};
ghost use Rattle.page.specs.Lines.{lines, content, command, Rec};
ghost use Rattle.page.specs.Records.{waits};
ghost use Rattle.page.specs.Places.{stands, record_at};
ghost use Rattle.page.proofs.LineLaws.{line_size};
ghost use Rattle.places.specs.Placed.{Placed};

use lines::lines_from;

// A record's fields: what stands after its line's first `;`, and the field of the mark that waits for it (0: none). 0 to 0 is no record:
// `Placed` has it so, of what `record_at` answers.
#[derive(Clone, Copy)]
pub struct Place {
    pub from: usize,
    pub to: usize,
    pub mark: u64,
}

// The mark that waits after a line.
pub fn wait_on(l: &[u8], m: u64) -> u64
    ensures { result ≡ waits m (content l.now) }
{
    quoted::wait_on(lines::content_of(l), m)
}

// The fields of the `rec` line from `at` to `e`.
pub fn place_fields(s: &[u8], at: usize, e: usize, m: u64) -> Place
    requires { (at < length s.now)
        × (e ≡ at + line_size (drop at s.now))
        × (command (content (take (e - at) (drop at s.now))) ≡ Rec) }
    ensures { Placed s.now (stands at (take (e - at) (drop at s.now)) m) result }
{
    let to = at + lines::content_len(&s[at..e]);
    let i = lines::find_semicolon(&s[at..to]);
    Place {
        from: at + i + 1,
        to,
        mark: m,
    }
}

// The record after r others, among the lines from a place on.
pub fn find_record(s: &[u8], from: usize, r: usize) -> Place
    requires { from ≤ length s.now }
    ensures { Placed s.now (record_at r 0 from (lines (drop from s.now))) result }
{
    let mut m: u64 = 0;
    let mut k = r;
    for line in lines_from(s, from) {
        if commands::is_record(line.bytes) {
            if k == 0 {
                return place_fields(s, line.at, line.end(), m);
            }
            k -= 1;
            m = 0;
        } else {
            m = wait_on(line.bytes, m);
        }
    }
    Place {
        from: 0,
        to: 0,
        mark: 0,
    }
}
