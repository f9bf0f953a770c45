// A section by its number.
ghost use Rattle.std.specs.Prelude.{◌≡◌};
ghost use Rattle.page.specs.Answers.{refusal};
ghost use Rattle.sections.specs.Located.{located, Locates};

use cut::find_nth;
use page::Refusal;

pub fn refuse_with(number: u32) -> Refusal
    ensures { result ≡ refusal number 0 0 }
{
    Refusal {
        number: number,
        section: 0,
        line: 0,
    }
}

// "the first of 1, 2, 24 for the section": section i, from 1.
pub fn locate(file: &[u8], i: usize) -> Result<usize, Refusal>
    ensures { (result ≡ located file.now i) × Locates file.now i result }
{
    let x = headers::refuse_header(file);
    if x.number != 0 {
        return Err(x);
    }
    if i == 0 {
        return Err(refuse_with(24));
    }
    let at = find_nth(file, i - 1);
    if file.len() <= at {
        return Err(refuse_with(24));
    }
    Ok(at)
}
