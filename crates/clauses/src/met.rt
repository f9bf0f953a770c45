// What a header has met so far.
ghost use Rattle.std.specs.Prelude.{◌≡◌};
ghost use Rattle.commands.specs.Commands.{code};
ghost use Rattle.page.specs.Header.{met_before, meet, complete, head_end};

use commands::Command;
use page::{Finding, Met};

// Has the line of command k been met? A command that no header has counts as met.
#[tactic(auto, unfolding(page::specs::Header::met_before))]
pub fn was_met(m: Met, k: Command) -> bool
    ensures { result ≡ met_before (code k) m }
{
    match k {
        Command::Src => m.src,
        Command::Chs => m.chs,
        Command::Ver => m.ver,
        Command::Ifv => m.ifv,
        Command::Dve => m.dve,
        Command::Fft => m.fft,
        _ => true,
    }
}

#[tactic(auto, unfolding(page::specs::Header::meet))]
pub fn meet(m: Met, k: Command) -> Met
    ensures { result ≡ meet (code k) m }
{
    Met {
        form: m.form,
        src: m.src | (k == Command::Src),
        chs: m.chs | (k == Command::Chs),
        ver: m.ver | (k == Command::Ver),
        ifv: m.ifv | (k == Command::Ifv),
        dve: m.dve | (k == Command::Dve),
        fft: m.fft | (k == Command::Fft),
    }
}

// Is nothing missing?
#[tactic(auto, unfolding(page::specs::Header::complete))]
fn is_complete(m: Met) -> bool
    ensures { result ≡ complete m }
{
    m.form != 0 && m.src && m.chs && m.ver && m.ifv
}

// The header's verdict after its n lines.
#[tactic(auto, unfolding(page::specs::Header::head_end))]
pub fn end_header(m: Met, n: usize) -> Finding
    ensures { result ≡ head_end m n }
{
    if is_complete(m) {
        Finding {
            verdict: 0,
            line: 0,
        }
    } else {
        Finding {
            verdict: 2,
            line: n,
        }
    }
}
