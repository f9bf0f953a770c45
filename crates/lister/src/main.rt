// Lists every section of the file on standard input.
#![tactic(auto)]

use std::io;
use std::io::{BufWriter, Write};

fn main(rt: HostRuntime) -> io::Result<()> {
    let mut out = BufWriter::new(rt.alloc(), io::writer(&rt))?;
    listing::list_input(rt.alloc(), rt.reader(), &mut out)?;
    out.flush()
}
