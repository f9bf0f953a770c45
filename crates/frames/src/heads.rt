// The written header: "Order mod, src, chs, ver, ifv, dve, fft, present ones only".
ghost use Rattle.output.specs.Put.{Puts};
ghost use Rattle.frames.specs.Heads.{src_line, chs_line, stated_line, head_raw, versions};

use crate::written_lines::{put_line, put_text_line};
use decimals::{put_date, put_time};
use doubling::put_raw_part;
use output::Output;
use page::{Header, LineEnd, Span};

fn put_src_line(out: &mut Output<'_>, ends: LineEnd, file: &[u8], header: Header)
    ensures { Puts out.old (src_line ends file.now header.source header.date header.time) out.new }
{
    out.put_bytes(b"src; ");
    put_raw_part(out, file, header.source);
    out.put_bytes(b"; \"");
    put_date(out, header.date);
    out.put_bytes(b"\"; \"");
    put_time(out, header.time);
    out.put_byte(34);
    out.put_line_end(ends);
}

// "`ISO8859-1` spelt thus"
fn put_chs_line(out: &mut Output<'_>, ends: LineEnd, latin: bool)
    ensures { Puts out.old (chs_line ends latin) out.new }
{
    if latin {
        put_line(out, ends, b"chs; \"ISO8859-1\"");
    } else {
        put_line(out, ends, b"chs; \"ASCII\"");
    }
}

fn put_stated_line(
    out: &mut Output<'_>,
    ends: LineEnd,
    word: &[u8],
    file: &[u8],
    stated: Option<Span>,
)
    ensures { Puts out.old (stated_line ends word.now file.now stated) out.new }
{
    if let Some(place) = stated {
        put_text_line(out, ends, word, file, place);
    }
}

fn put_versions(out: &mut Output<'_>, ends: LineEnd, file: &[u8], header: Header)
    ensures { Puts out.old (versions ends file.now header) out.new }
{
    put_text_line(out, ends, b"ver", file, header.ver);
    put_text_line(out, ends, b"ifv", file, header.ifv);
    put_stated_line(out, ends, b"dve", file, header.dve);
    put_stated_line(out, ends, b"fft", file, header.fft);
}

// A header's values, its texts as they stand in the file.
pub fn put_head(out: &mut Output<'_>, ends: LineEnd, file: &[u8], header: Header)
    ensures { Puts out.old (head_raw ends file.now header) out.new }
{
    put_line(out, ends, b"mod; DD.MM.YYYY; HH:MM:SS; free");
    put_src_line(out, ends, file, header);
    put_chs_line(out, ends, header.latin);
    put_versions(out, ends, file, header);
}
