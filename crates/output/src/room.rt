// Room for a form in lent output.
ghost use Rattle.std.specs.Prelude.{◌≡◌, ◌||◌, ltb};
ghost use Rattle.page.specs.Answers.{refuse_if, answered};
ghost use Rattle.page.specs.File.{limit};

use page::Refusal;

// "21 exactly if the form is longer than the lent output or than 16,777,216 bytes"
#[tactic(auto, unfolding(page::specs::Answers::refuse_if, page::specs::Answers::answered))]
pub fn refuse_room(need: usize, room: usize) -> Result<(), Refusal>
    ensures { result ≡ answered (refuse_if (ltb room need || ltb limit need) 21) tt }
{
    if room < need || 16777216 < need {
        return Err(Refusal {
            number: 21,
            section: 0,
            line: 0,
        });
    }
    Ok(())
}
