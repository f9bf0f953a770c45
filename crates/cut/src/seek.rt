// From section to section.
ghost use Rattle.std.specs.Prelude.{◌≡◌, ◌+◌, ◌<◌, ◌≤◌, length, drop};
ghost use Rattle.cut.specs.Walk.{section_size, Next, Reached};

use lines::lines_from;

// The next section at or after a line's place: "A section begins at each `tbl` line".
pub fn find_section(s: &[u8], at: usize) -> usize
    requires { at ≤ length s.now }
    ensures { Next s.now at result }
{
    for line in lines_from(s, at) {
        if commands::begins_table(line.bytes) {
            return line.at;
        }
    }
    s.len()
}

// The section after k others.
pub fn find_nth(s: &[u8], k: usize) -> usize
    ensures { Reached s.now k result }
{
    let mut at = find_section(s, 0);
    for _ in 0..k {
        if s.len() <= at {
            return at;
        }
        at = find_section(s, section_end(s, at));
    }
    at
}

// Where the section at a place ends: "up to the next `tbl` or `eof` line or the end of the bytes".
pub fn section_end(s: &[u8], from: usize) -> usize
    requires { from < length s.now }
    ensures { (result ≡ from + section_size (drop from s.now))
        × (from < result)
        × (result ≤ length s.now) }
{
    let Some(line) = lines_from(s, from).next() else {
        return from;
    };
    let e = line.end();
    e + crate::cut::header_size(&s[e..])
}
