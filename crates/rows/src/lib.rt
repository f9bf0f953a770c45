// "Whoever lists a file may lend rows: one row a section."
#![tactic(auto)]

ghost use Rattle.std.specs.Prelude.{◌≡◌, true, length};
ghost use Rattle.page.specs.Answers.{earlier, sound};
ghost use Rattle.page.specs.File.{file_refusal, rows_of, first_unsound};
ghost use Rattle.page.specs.Reading.{list_refusal, rows_after};
ghost use Rattle.steps.specs.Steps.{Begins};
ghost use Rattle.rows.specs.Walk.{step_of};

use page::{Refusal, Row};
use steps::{Step, begin_list, step_over};

// A section begins at `at`; `before`: all before it are sound.
fn read_step(file: &[u8], at: usize, latin: bool, before: bool) -> Step
    requires { Begins file.now at }
    ensures { result ≡ step_of file.now at latin before }
{
    let row = sections::read_section(file, at, latin);
    step_over(file, at, row, before)
}

// The file's answer, unless listing itself is refused. `known`: all its sections are sound.
fn answer_list(file: &[u8], r: Refusal, known: bool) -> Refusal
    requires { r.number ≡ 0 → known ≡ true → first_unsound 1 (rows_of file.now) ≡ sound }
    ensures { result ≡ earlier r (file_refusal file.now) }
{
    if r.number != 0 {
        return r;
    }
    files::check_known(file, known)
}

// "Listing is refused by 1, 2 and 21 only and then writes no row; other verdicts go into the rows and the file's answer. Spare rows
// keep their values." The number 0 is sound.
pub fn list(file: &[u8], rows: &mut [Row]) -> Refusal
    ensures { (result ≡ earlier (list_refusal file.now (length rows.old)) (file_refusal file.now))
        × (rows.new ≡ rows_after file.now rows.old) }
{
    let b = begin_list(file, rows.len());
    let n = b.count;
    let mut at = b.at;
    let mut sound = true;
    for i in 0..n {
        let t = read_step(file, at, b.latin, sound);
        rows[i] = t.row;
        at = t.next;
        sound = t.sound;
    }
    answer_list(file, b.refusal, sound)
}
