// "the first unsound section in file order"
ghost use Rattle.std.specs.Prelude.{◌≡◌, map};
ghost use Rattle.page.specs.Answers.{answered};
ghost use Rattle.page.specs.Cut.{sections};
ghost use Rattle.page.specs.File.{row_of, first_unsound};

use page::Refusal;

// The next section begins after the length in the row of the one before: so no section is walked once more for its end.
pub fn first_unsound(s: &[u8], latin: bool) -> Result<(), Refusal>
    ensures { result ≡ answered (first_unsound 1 (map (row_of latin) (sections s.now))) tt }
{
    let mut i = 1;
    let mut at = cut::find_section(s, 0);
    while at < s.len() {
        let row = sections::read_section(s, at, latin);
        if row.verdict != 0 {
            return Err(Refusal {
                number: row.verdict,
                section: i,
                line: row.line,
            });
        }
        at = cut::find_section(s, at + row.length);
        i += 1;
    }
    Ok(())
}
