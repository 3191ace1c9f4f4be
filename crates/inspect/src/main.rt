//! Shows what a trace on standard input holds, or what is wrong with it. A second mode, `many`, serves
//! for comparisons: it reads many files, and writes each again from its tables.

#![tactic(auto)]

use std::io::{BufWriter, Read, Write};
use std::{env, io};

mod many;
mod report;

/// No valid file is longer than 30,880 bytes.
const MOST_BYTES: u64 = 65536;

/// Whether the one argument that there may be asks for many files.
fn asks_for_many(rt: &HostRuntime) -> io::Result<bool> {
    let mut args = env::args(rt)?;
    let _program = args.next();
    match args.next() {
        None => Ok(false),
        Some(word) if word.as_str() == "many" => Ok(true),
        Some(_) => Err(io::Error::other("usage: inspect [many] < FILE")),
    }
}

fn main(rt: HostRuntime) -> io::Result<()> {
    let mut out = BufWriter::new(rt.alloc(), rt.stdout())?;
    let mut input = Vec::new(rt.alloc());
    if asks_for_many(&rt)? {
        rt.stdin().read_to_end(&mut input)?;
        many::report_all(rt.alloc(), &mut out, input.as_slice())?;
    } else {
        rt.stdin().take(MOST_BYTES).read_to_end(&mut input)?;
        report::report(&mut out, input.as_slice())?;
    }
    out.flush()
}
