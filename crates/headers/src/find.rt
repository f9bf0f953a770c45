// The lines of a header by their commands: `h` is the header's bytes.
ghost use Rattle.std.specs.Prelude.{◌≡◌, ◌<◌};
ghost use Rattle.page.specs.Lines.{lines};
ghost use Rattle.page.specs.Head.{stands_in};
ghost use Rattle.commands.specs.Commands.{code};
ghost use Rattle.headers.specs.Found.{Found};

use commands::Command;
use lines::lines_of;
use page::Span;

// The first line of command k: what follows its first `;`. No Option: `Found` has 0 to 0 where no line has that command.
pub fn find_line(h: &[u8], k: Command) -> Span
    requires { code k < 16 }
    ensures { Found (code k) h.now result }
{
    for line in lines_of(h) {
        let to = line.at + lines::content_len(line.bytes);
        let c = &h[line.at..to];
        if Command::of(c) == k {
            return Span {
                from: line.at + lines::find_semicolon(c) + 1,
                to,
            };
        }
    }
    Span { from: 0, to: 0 }
}

pub fn stands_in(h: &[u8], k: Command) -> bool
    requires { code k < 16 }
    ensures { result ≡ stands_in (code k) (lines h.now) }
{
    find_line(h, k).from != 0
}
