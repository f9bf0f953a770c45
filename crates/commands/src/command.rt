// A line's command.
ghost use Rattle.std.specs.Prelude.{◌≡◌, true, ◌<◌, eqb, ltb};
ghost use Rattle.page.specs.Lines.{content, find, known, Mod, Rec, Unknown, command, clean};
ghost use Rattle.page.specs.Cut.{begins_table, begins_end};
ghost use Rattle.commands.specs.Commands.{code, key_of, find_key, Set};

use lines::{all_allowed, content_of, find_semicolon, trimmed};

// A command by its name, or one that is not known, or none at all.
#[derive(Clone, Copy, PartialEq, Eq)]
pub enum Command {
    Mod,
    Src,
    Chs,
    Ver,
    Ifv,
    Dve,
    Fft,
    Tbl,
    Atr,
    Frm,
    Rec,
    End,
    Com,
    Eof,
    Unknown,
    Missing,
}

// A name's three bytes as one number.
fn pack(a: u8, b: u8, c: u8) -> u32
    ensures { result ≡ key_of a b c }
{
    (u32::from(a) * 256 + u32::from(b)) * 256 + u32::from(c)
}

// "Known commands: mod src chs ver ifv dve fft tbl atr frm rec end com eof."
#[tactic(auto, unfolding(crate::specs::Commands::find_key, crate::specs::Commands::key, page::specs::Bytes::bytes, page::specs::Lines::known))]
fn by_key(k: u32) -> Command
    ensures { code result ≡ find_key Mod known k }
{
    match k {
        0x6d6f64 => Command::Mod,
        0x737263 => Command::Src,
        0x636873 => Command::Chs,
        0x766572 => Command::Ver,
        0x696676 => Command::Ifv,
        0x647665 => Command::Dve,
        0x666674 => Command::Fft,
        0x74626c => Command::Tbl,
        0x617472 => Command::Atr,
        0x66726d => Command::Frm,
        0x726563 => Command::Rec,
        0x656e64 => Command::End,
        0x636f6d => Command::Com,
        0x656f66 => Command::Eof,
        _ => Command::Unknown,
    }
}

// The place of a name among the known commands.
fn find_name(w: &[u8]) -> Command
    ensures { code result ≡ find Mod known w.now }
{
    match *w {
        [a, b, c] => by_key(pack(a, b, c)),
        _ => Command::Unknown,
    }
}

// Whether the first `;` stands after three bytes, none of which is a space: each is a letter, as nearly always.
fn is_set(c: &[u8]) -> bool
    ensures { result ≡ true → Set c.now }
{
    match *c {
        [x, y, z, end, ..] => (59 < x) & (59 < y) & (59 < z) & (end == 59),
        _ => false,
    }
}

fn seek_command(c: &[u8]) -> Command
    ensures { code result ≡ command c.now }
{
    let i = find_semicolon(c);
    if i < c.len() {
        return find_name(trimmed(&c[..i]));
    }
    Command::Missing
}

// The command of a content that is set.
fn set_command(c: &[u8]) -> Command
    requires { Set c.now }
    ensures { code result ≡ command c.now }
{
    by_key(pack(c[0], c[1], c[2]))
}

impl Command {
    // "The command is what stands before the first `;`, spaces trimmed."
    pub fn of(c: &[u8]) -> Command
        ensures { code result ≡ command c.now }
    {
        if is_set(c) {
            return set_command(c);
        }
        seek_command(c)
    }

    pub fn is_known(self) -> bool
        ensures { result ≡ ltb (code self) Unknown }
    {
        match self {
            Command::Unknown | Command::Missing => false,
            _ => true,
        }
    }
}

// "Also every byte 161..255 in `rec` lines under ISO8859-1."
pub fn is_clean(c: &[u8], latin: bool) -> bool
    ensures { result ≡ clean latin c.now }
{
    all_allowed(c, latin && Command::of(c) == Command::Rec)
}

// Is a whole line of a command?
pub fn begins_with(l: &[u8], k: Command) -> bool
    ensures { result ≡ eqb (command (content l.now)) (code k) }
{
    Command::of(content_of(l)) == k
}

#[tactic(auto, unfolding(page::specs::Cut::begins_table))]
pub fn begins_table(l: &[u8]) -> bool
    ensures { result ≡ begins_table l.now }
{
    begins_with(l, Command::Tbl)
}

#[tactic(auto, unfolding(page::specs::Cut::begins_end))]
pub fn begins_end(l: &[u8]) -> bool
    ensures { result ≡ begins_end l.now }
{
    begins_with(l, Command::Eof)
}

pub fn is_record(l: &[u8]) -> bool
    ensures { result ≡ eqb (command (content l.now)) Rec }
{
    begins_with(l, Command::Rec)
}
