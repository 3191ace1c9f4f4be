//! A trace on standard input, its listing on standard output.

#![tactic(auto)]

use replays::replay::{LISTING_BYTES, replay};
use std::io::{Read, Write};

/// What is behind these is not read: no valid file is longer than 30,880 bytes.
const MOST_BYTES: u64 = 65536;

fn main(rt: HostRuntime) -> anyhow::Result<()> {
    let heap = rt.alloc();
    let mut bytes = Vec::new(heap);
    rt.stdin().take(MOST_BYTES).read_to_end(&mut bytes)?;
    let mut listing = vec![in heap; 0u8; LISTING_BYTES]?;
    let end = replay(heap, &bytes, &mut listing)?;
    rt.stdout().write_all(&listing[..end])?;
    Ok(())
}
