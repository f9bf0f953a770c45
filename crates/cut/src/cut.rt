// Where a file's header ends and its trailer starts, and how many sections it has.
ghost use Rattle.std.specs.Prelude.{◌≡◌, ◌||◌, ◌+◌, ◌≤◌, length, take, drop};
ghost use Rattle.page.specs.Lines.{lines, joined};
ghost use Rattle.page.specs.Cut.{begins_table, begins_end, header_lines, trailer_lines, sections};
ghost use Rattle.page.proofs.CutLaws.{sections_from};

use lines::{lines_from, lines_of};

fn begins_part(l: &[u8]) -> bool
    ensures { result ≡ (begins_table l.now || begins_end l.now) }
{
    commands::begins_table(l) || commands::begins_end(l)
}

// "The header is every line before the first `tbl` or `eof` line": how many bytes it has.
pub fn header_size(s: &[u8]) -> usize
    ensures { (result ≡ length (joined (header_lines s.now)))
        × (result ≤ length s.now)
        × (lines (take result s.now) ≡ header_lines s.now) }
{
    for line in lines_of(s) {
        if begins_part(line.bytes) {
            return line.at;
        }
    }
    s.len()
}

// "A section begins at each `tbl` line": the sections from a line's place on.
fn count_from(s: &[u8], at: usize) -> usize
    requires { at ≤ length s.now }
    ensures sections { result ≡ length (sections_from s.now at) }
    ensures bound { at + result ≤ length s.now }
{
    lines_from(s, at)
        .filter(|line| commands::begins_table(line.bytes))
        .count()
}

pub fn count_sections(s: &[u8]) -> usize
    ensures { result ≡ length (sections s.now) }
{
    count_from(s, 0)
}

// How many sections a file has, and where its trailer starts.
#[derive(Clone, Copy)]
pub struct Survey {
    pub sections: usize,
    pub end: usize,
}

// Both in one walk over its lines: "It starts at the first `eof` line", and what stands after that line, nearly always nothing, is
// walked for its `tbl` lines alone.
pub fn survey_file(s: &[u8]) -> Survey
    ensures { (result.sections ≡ length (sections s.now))
        × (result.end ≤ length s.now)
        × (lines (drop result.end s.now) ≡ trailer_lines s.now) }
{
    let mut n: usize = 0;
    for line in lines_of(s) {
        if commands::begins_end(line.bytes) {
            return Survey {
                sections: n + count_from(s, line.at),
                end: line.at,
            };
        }
        if commands::begins_table(line.bytes) {
            n += 1;
        }
    }
    Survey {
        sections: n,
        end: s.len(),
    }
}
