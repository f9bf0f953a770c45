// What listing begins with, and how it goes from section to section.
#![tactic(auto)]

ghost use Rattle.std.specs.Prelude.{◌≡◌, drop};
ghost use Rattle.cut.specs.Walk.{section_size};
ghost use Rattle.steps.specs.Steps.{Begins, stays, step_by, refused, start_of};

use page::{Refusal, Row};

// What a pass over a file's sections begins with, as `Steps.start_of` has it: the refusal, or how many rows it writes, where the first section stands, and
// whether the header names ISO8859-1.
#[derive(Clone, Copy)]
pub struct Start {
    pub refusal: Refusal,
    pub count: usize,
    pub at: usize,
    pub latin: bool,
}

// A section's row, where the next section stands, and whether this one and all before it are sound.
#[derive(Clone, Copy)]
pub struct Step {
    pub row: Row,
    pub next: usize,
    pub sound: bool,
}

// "and then writes no row"
fn refuse_list(r: Refusal) -> Start
    ensures { result ≡ refused r }
{
    Start {
        refusal: r,
        count: 0,
        at: 0,
        latin: false,
    }
}

// "Too few rows is 21, after 1 and 2."
pub fn begin_list(file: &[u8], room: usize) -> Start
    ensures { result ≡ start_of file.now room }
{
    let r = headers::refuse_header(file);
    if r.number != 0 {
        return refuse_list(r);
    }
    let n = cut::count_sections(file);
    if room < n {
        return refuse_list(Refusal {
            number: 21,
            section: 0,
            line: 0,
        });
    }
    let at = cut::find_section(file, 0);
    let latin = headers::read_charset(file);
    Start {
        refusal: Refusal {
            number: 0,
            section: 0,
            line: 0,
        },
        count: n,
        at,
        latin,
    }
}

// Is a section sound, and were all before it?
fn stay_sound(before: bool, verdict: u32) -> bool
    ensures { result ≡ stays before verdict }
{
    verdict == 0 && before
}

// The section that begins at `at` has this row; `before`: all before it are sound.
pub fn step_over(file: &[u8], at: usize, row: Row, before: bool) -> Step
    requires { Begins file.now at × (row.length ≡ section_size (drop at file.now)) }
    ensures { result ≡ step_by file.now at row before }
{
    let next = cut::find_section(file, at + row.length);
    let sound = stay_sound(before, row.verdict);
    Step { row, next, sound }
}
