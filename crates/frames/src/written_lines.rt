// Single lines of the written file.
ghost use Rattle.std.specs.Prelude.{[], ◌∷◌, ◌++◌};
ghost use Rattle.page.specs.Form.{line_end, decimal, mark_line};
ghost use Rattle.output.specs.Put.{Puts};
ghost use Rattle.frames.specs.Lines.{line_with, text_line};

use decimals::put_decimal;
use doubling::put_raw_part;
use output::Output;
use page::{LineEnd, Span};

// A line that is known whole.
pub fn put_line(out: &mut Output<'_>, ends: LineEnd, text: &[u8])
    ensures { Puts out.old (text.now ++ line_end ends) out.new }
{
    out.put_bytes(text);
    out.put_line_end(ends);
}

// `end; count` and `eof; count`
pub fn put_count_line(out: &mut Output<'_>, ends: LineEnd, word: &[u8], n: u64)
    ensures { Puts out.old (line_with ends word.now (decimal n ∷ [])) out.new }
{
    out.put_bytes(word);
    out.put_separator();
    put_decimal(out, n);
    out.put_line_end(ends);
}

// A line of one text, which stands in the file.
pub fn put_text_line(out: &mut Output<'_>, ends: LineEnd, word: &[u8], file: &[u8], place: Span)
    ensures { Puts out.old (text_line ends word.now file.now place) out.new }
{
    out.put_bytes(word);
    out.put_separator();
    put_raw_part(out, file, place);
    out.put_line_end(ends);
}

// A suggestion's mark.
pub fn put_mark(out: &mut Output<'_>, ends: LineEnd, i: u64)
    ensures { Puts out.old (mark_line ends i) out.new }
{
    out.put_bytes(b"com; \"SUGGESTED ");
    put_decimal(out, i);
    out.put_byte(34);
    out.put_line_end(ends);
}
