// The lines that begin a section, from the fixed tables.
ghost use Rattle.page.specs.Tables.{table_at};
ghost use Rattle.page.specs.Form.{table_head};
ghost use Rattle.output.specs.Put.{Puts};
ghost use Rattle.frames.specs.Lines.{line_with};
ghost use Rattle.frames.specs.Titles.{tbl_line, title_at, titles};

use decimals::put_format;
use output::Output;
use page::LineEnd;
use tables::{find_column, find_name, find_title, find_width};

fn put_tbl_line(out: &mut Output<'_>, ends: LineEnd, t: usize)
    ensures { Puts out.old (tbl_line ends t) out.new }
{
    out.put_bytes(b"tbl; ");
    out.put_bytes(find_title(t));
    out.put_line_end(ends);
}

// What is said of a column: its format, "with the sizes above", or its name. `formats` is a flag as in the definition `title_of`: a closure in
// its place would need a clause of its own on what it puts.
fn put_title(out: &mut Output<'_>, t: usize, k: usize, formats: bool)
    ensures { Puts out.old (title_at formats t k) out.new }
{
    if formats {
        put_format(out, find_column(t, k));
    } else {
        out.put_bytes(find_name(t, k));
    }
}

// `atr; names` and `frm; formats`
fn put_titles(out: &mut Output<'_>, ends: LineEnd, word: &[u8], t: usize, formats: bool)
    ensures { Puts out.old (line_with ends word.now (titles formats t)) out.new }
{
    out.put_bytes(word);
    for k in 0..find_width(t) {
        out.put_separator();
        put_title(out, t, k, formats);
    }
    out.put_line_end(ends);
}

pub fn put_table_head(out: &mut Output<'_>, ends: LineEnd, t: usize)
    ensures { Puts out.old (table_head ends (table_at t)) out.new }
{
    put_tbl_line(out, ends, t);
    put_titles(out, ends, b"atr", t, false);
    put_titles(out, ends, b"frm", t, true);
}
