// What a file says, by value.
ghost use Rattle.std.specs.Prelude.{◌≡◌};
ghost use Rattle.page.specs.File.{file_refusal};
ghost use Rattle.page.specs.Reading.{header_of, section_of, value_of};
ghost use Rattle.told.specs.Told.{told_headed, told_listed, told_got};

use page::Refusal;
use told::{HeaderAnswer, RowAnswer, ValueAnswer};

// The file's answer: number 0 is sound.
#[unsafe(no_mangle)]
pub extern "C" fn vdv_check(file: &[u8]) -> Refusal
    ensures { result ≡ file_refusal file.now }
{
    files::check_file(file)
}

#[unsafe(no_mangle)]
pub extern "C" fn vdv_header(file: &[u8]) -> HeaderAnswer
    ensures { result ≡ told_headed (header_of file.now) }
{
    HeaderAnswer::from(headers::header(file))
}

#[unsafe(no_mangle)]
pub extern "C" fn vdv_section(file: &[u8], section: usize) -> RowAnswer
    ensures { result ≡ told_listed (section_of file.now section) }
{
    RowAnswer::from(sections::section(file, section))
}

#[unsafe(no_mangle)]
pub extern "C" fn vdv_value(file: &[u8], section: usize, record: usize, field: usize) -> ValueAnswer
    ensures { result ≡ told_got (value_of file.now section «record» field) }
{
    ValueAnswer::from(lookups::value(file, section, record, field))
}
