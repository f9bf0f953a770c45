// "texts quoted": a text by its own bytes, or by its bytes as they stand in a file.
ghost use Rattle.std.specs.Prelude.{[], ◌∷◌};
ghost use Rattle.page.specs.Bytes.{part};
ghost use Rattle.page.specs.Form.{doubled, quoted};
ghost use Rattle.output.specs.Put.{Puts};
ghost use Rattle.doubling.specs.Raw.{raw_text};

use output::Output;
use page::Span;

fn put_doubled_byte(out: &mut Output<'_>, b: u8)
    ensures { Puts out.old (doubled (b ∷ [])) out.new }
{
    if b == 34 {
        out.put_byte(b);
    }
    out.put_byte(b);
}

// A text's own bytes, a quote doubled.
pub fn put_doubled(out: &mut Output<'_>, s: &[u8])
    ensures { Puts out.old (doubled s.now) out.new }
{
    for b in s {
        put_doubled_byte(out, *b);
    }
}

// A text by its own bytes.
pub fn put_quoted(out: &mut Output<'_>, s: &[u8])
    ensures { Puts out.old (quoted s.now) out.new }
{
    out.put_byte(34);
    put_doubled(out, s);
    out.put_byte(34);
}

// A text by what stands between its quotes in a file, where a quote is doubled already.
pub fn put_raw(out: &mut Output<'_>, raw: &[u8])
    ensures { Puts out.old (raw_text raw.now) out.new }
{
    out.put_byte(34);
    out.put_bytes(raw);
    out.put_byte(34);
}

// The same by its place; past the file's end nothing stands.
pub fn put_raw_part(out: &mut Output<'_>, file: &[u8], place: Span)
    ensures { Puts out.old (raw_text (part place file.now)) out.new }
{
    let to = place.to.min(file.len());
    let from = place.from.min(to);
    put_raw(out, &file[from..to])
}
