// For each file that an argument names: its name, its listing, and what writing, filling and stripping make of it.
#![tactic(auto)]

mod printed_forms;

use std::alloc::Global;
use std::io::{BufWriter, Read, Write};
use std::rt::Files;
use std::{env, fs, io};

// The longest name of a file. A longer one is no name, and is told as none.
const LONGEST: usize = 4096;

fn name_in(argument: &str) -> &str {
    if argument.len() <= LONGEST {
        argument
    } else {
        ""
    }
}

fn show_file<R: Read + Drop, W: Write>(alloc: Global, file: R, out: &mut W) -> io::Result<()> {
    let s = listing::read_front(alloc, file)?;
    listing::print_listing(out, s.as_slice())?;
    printed_forms::print_forms(out, s.as_slice())
}

// A file that cannot be opened is told on standard error, after what was printed before it.
fn show_argument<R: Files + Eprint + AllocGlobal, W: Write>(
    rt: &R,
    path: &str,
    out: &mut W,
) -> io::Result<()> {
    writeln!(out, "{path}")?;
    match fs::open(rt, path) {
        Ok(file) => show_file(rt.alloc(), file, out),
        Err(e) => {
            out.flush()?;
            eprintln!(rt; "{path}: {e}")
        }
    }
}

fn main(rt: HostRuntime) -> io::Result<()> {
    let mut out = BufWriter::new(rt.alloc(), io::writer(&rt))?;
    for path in env::args(&rt)?.skip(1) {
        show_argument(&rt, name_in(path.as_str()), &mut out)?;
    }
    out.flush()
}
