// The header's verdict, line by line.
ghost use Rattle.std.specs.Prelude.{◌≡◌};
ghost use Rattle.page.specs.Lines.{lines};
ghost use Rattle.page.specs.Fields.{fields};
ghost use Rattle.page.specs.Cut.{header_lines};
ghost use Rattle.commands.specs.Commands.{code};
ghost use Rattle.page.specs.Header.{mod_step, other_step, met_none, head_step, head_of};

use clauses::{end_header, meet, was_met};
use commands::Command;
use lines::{content_of, lines_of};
use page::{Finding, Met};

fn begin(form: u32) -> Met
    ensures { result ≡ met_none form }
{
    Met {
        form: form,
        src: false,
        chs: false,
        ver: false,
        ifv: false,
        dve: false,
        fft: false,
    }
}

// "The first other line is `mod`": a line of command k, before any has been met.
#[tactic(auto, unfolding(page::specs::Header::mod_step, page::specs::Header::head_choose))]
fn step_mode(w: &[u8], k: Command) -> Option<Met>
    ensures { result ≡ mod_step (code k) (fields w.now) }
{
    if k != Command::Mod {
        return None;
    }
    match clauses::read_mode(w) {
        0 => None,
        form => Some(begin(form)),
    }
}

// "Then `src`, `chs`, `ver`, `ifv` once each and `dve`, `fft` at most once, in any order."
#[tactic(auto, unfolding(page::specs::Header::other_step, page::specs::Header::head_choose))]
fn step_other(w: &[u8], m: Met, k: Command) -> Option<Met>
    ensures { result ≡ other_step m (code k) (fields w.now) }
{
    if !was_met(m, k) && clauses::holds(w, k, m.form) {
        Some(meet(m, k))
    } else {
        None
    }
}

// What a line leads to: `c` is its content.
#[tactic(auto, unfolding(page::specs::Header::head_step, page::specs::Header::head_choose))]
pub fn step_header(c: &[u8], m: Met) -> Option<Met>
    ensures { result ≡ head_step m c.now }
{
    if !commands::is_clean(c, false) {
        return None;
    }
    if lines::is_blank(c) {
        return Some(m);
    }
    let k = Command::of(c);
    if k == Command::Com {
        return Some(m);
    }
    let w = lines::rest_of(c);
    if m.form == 0 {
        step_mode(w, k)
    } else {
        step_other(w, m, k)
    }
}

// The verdict on a header's bytes.
fn read_lines(s: &[u8]) -> Finding
    ensures { result ≡ head_of (lines s.now) }
{
    let mut m = begin(0);
    let mut n: usize = 0;
    for line in lines_of(s) {
        n += 1;
        match step_header(content_of(line.bytes), m) {
            Some(q) => m = q,
            None => {
                return Finding {
                    verdict: 2,
                    line: n,
                };
            }
        }
    }
    end_header(m, n)
}

// The verdict on a file's header.
pub fn read_header(s: &[u8]) -> Finding
    ensures { result ≡ head_of (header_lines s.now) }
{
    let e = cut::header_size(s);
    read_lines(&s[..e])
}
