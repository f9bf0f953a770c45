// What a call that reads the header answers.
ghost use Rattle.std.specs.Prelude.{◌≡◌};
ghost use Rattle.page.specs.File.{header_refusal};
ghost use Rattle.page.specs.Reading.{header_of};

use page::{Header, Refusal};

// "The first of 1, 2."
pub fn refuse_header(file: &[u8]) -> Refusal
    ensures { result ≡ header_refusal file.now }
{
    if 16777216 < file.len() {
        return Refusal {
            number: 1,
            section: 0,
            line: 0,
        };
    }
    let f = crate::steps::read_header(file);
    Refusal {
        number: f.verdict,
        section: 0,
        line: f.line,
    }
}

// The header's values, or 1 or 2.
pub fn header(file: &[u8]) -> Result<Header, Refusal>
    ensures { result ≡ header_of file.now }
{
    let r = refuse_header(file);
    if r.number != 0 {
        return Err(r);
    }
    Ok(crate::values::read_values(file))
}
