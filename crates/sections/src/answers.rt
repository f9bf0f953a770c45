// What the call that reads one section answers.
ghost use Rattle.std.specs.Prelude.{◌≡◌};
ghost use Rattle.page.specs.Reading.{section_of};

use crate::reading::read_section;
use crate::walk::locate;
use page::{Refusal, Row};

// Section i of a file, from 1.
pub fn section(file: &[u8], i: usize) -> Result<Row, Refusal>
    ensures { result ≡ section_of file.now i }
{
    let at = locate(file, i)?;
    let latin = headers::read_charset(file);
    Ok(read_section(file, at, latin))
}
