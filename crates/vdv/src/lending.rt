// What a call writes into what C lends.
ghost use Rattle.std.specs.Prelude.{◌≡◌, length};
ghost use Rattle.page.specs.Answers.{earlier};
ghost use Rattle.page.specs.File.{file_refusal};
ghost use Rattle.page.specs.Handing.{text_out, text_after, table_of, cells_after};
ghost use Rattle.page.specs.Reading.{list_refusal, rows_after};
ghost use Rattle.page.specs.Writing.{write_of, write_after, strip_of, strip_after, fill_of, fill_after};
ghost use Rattle.told.specs.Told.{told_written, told_handed};

use page::{Refusal, Row};
use told::{LengthAnswer, TextAnswer};

// "Listing is refused by 1, 2 and 21 only and then writes no row; other verdicts go into the rows and the file's answer."
#[unsafe(no_mangle)]
pub extern "C" fn vdv_list(file: &[u8], rows: &mut [Row]) -> Refusal
    ensures { (result ≡ earlier (list_refusal file.now (length rows.old)) (file_refusal file.now))
        × (rows.new ≡ rows_after file.now rows.old) }
{
    rows::list(file, rows)
}

// A text's own bytes, doubled quotes undone, and whose it is.
#[unsafe(no_mangle)]
pub extern "C" fn vdv_text(
    file: &[u8],
    section: usize,
    record: usize,
    field: usize,
    out: &mut [u8],
) -> TextAnswer
    ensures { (result ≡ told_handed (text_out file.now section «record» field (length out.old)))
        × (out.new ≡ text_after file.now section «record» field out.old) }
{
    TextAnswer::from(handing::text(file, section, record, field, out))
}

// All values of a sound table, three numbers each: 0, the number, 0; or 1 for the operator's text and 2 for a suggestion, and its span.
#[unsafe(no_mangle)]
pub extern "C" fn vdv_table(file: &[u8], section: usize, cells: &mut [u64]) -> LengthAnswer
    ensures { (result ≡ told_written (table_of file.now section (length cells.old)))
        × (cells.new ≡ cells_after file.now section cells.old) }
{
    LengthAnswer::from(grids::table(file, section, cells))
}

// "Only a file with verdict 0 is written; else its verdict is given."
#[unsafe(no_mangle)]
pub extern "C" fn vdv_write(file: &[u8], out: &mut [u8]) -> LengthAnswer
    ensures { (result ≡ told_written (write_of file.now (length out.old)))
        × (out.new ≡ write_after file.now out.old) }
{
    LengthAnswer::from(forms::write(file, out))
}

// "Stripping gives the written form with marked texts empty and no marks."
#[unsafe(no_mangle)]
pub extern "C" fn vdv_strip(file: &[u8], out: &mut [u8]) -> LengthAnswer
    ensures { (result ≡ told_written (strip_of file.now (length out.old)))
        × (out.new ≡ strip_after file.now out.old) }
{
    LengthAnswer::from(forms::strip(file, out))
}

// "Filling names section, record and field (from 1) and a text; the result is the written form with that text and its mark."
#[unsafe(no_mangle)]
pub extern "C" fn vdv_fill(
    file: &[u8],
    section: usize,
    record: usize,
    field: usize,
    text: &[u8],
    out: &mut [u8],
) -> LengthAnswer
    ensures { (result ≡ told_written (fill_of file.now section «record» field text.now (length out.old)))
        × (out.new ≡ fill_after file.now section «record» field text.now out.old) }
{
    LengthAnswer::from(forms::fill(file, section, record, field, text, out))
}
