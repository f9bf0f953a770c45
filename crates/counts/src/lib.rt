// The line that ends a section, and its count.
#![tactic(auto)]

ghost use Rattle.std.specs.Prelude.{◌≡◌};
ghost use Rattle.page.specs.Fields.{fields, number_of};
ghost use Rattle.page.specs.Section.{count_step, end_step};

use page::{Number, Phase};

// "The count equals the number of `rec` lines": f is the field of the `end` line.
#[tactic(auto, unfolding(page::specs::Section::count_step, page::specs::Section::choose))]
fn step_count(f: &[u8], t: usize, n: usize) -> Result<Phase, u32>
    ensures { result ≡ count_step t n (number_of f.now) }
{
    match digits::read_number(f) {
        Number::Plus(c) if c == n as u64 => Ok(Phase::Ended(t, n)),
        Number::Plus(_) | Number::Minus(_) => Err(16),
        Number::Nothing => Err(12),
    }
}

// "`end` 15 for a mark without record, 10, 12, 16"
#[tactic(auto, unfolding(page::specs::Section::end_step, page::specs::Section::choose))]
pub fn step_end(w: &[u8], t: usize, m: u64, n: usize) -> Result<Phase, u32>
    ensures { result ≡ end_step t m n (fields w.now) }
{
    if m != 0 {
        return Err(15);
    }
    if commands::count_fields(w) != 1 {
        return Err(10);
    }
    step_count(commands::field_at(w, 0), t, n)
}
