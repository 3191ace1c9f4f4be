//! The replay, for programs in C: a static library, which `rt lib` makes in this folder. A C program
//! declares its one function as
//! `uint8_t fuvgyarom_replay(const uint8_t *trace, size_t trace_bytes, uint8_t *listing, size_t listing_bytes, size_t *written);`
//! and links with the kit's `liblibc_c.a`, through which the library calls `malloc` and `free`.

#![tactic(auto)]

ghost use Rattle.std.specs.Prelude.{◌≡◌};
ghost use Rattle.fuvgyarom.specs.Statuses.{Answered};
ghost use Rattle.replays.specs.Replays.{FilePromises};

use replays::replay::replay;
use std::alloc::Global;

/// What the call answers where there is no memory; no refusal has this number.
const NO_MEMORY: u8 = 255;

// A number and no Result: a C program calls it.
/// Replays a trace into a buffer for its listing. Answers 0, and how many bytes were written; or 18 if
/// the buffer is under 62,464 bytes; or 255 if there is no memory. Nothing is written then.
#[unsafe(no_mangle)]
pub extern "C" fn fuvgyarom_replay(
    heap: Global,
    trace: &[u8],
    listing: &mut [u8],
    written: &mut usize,
) -> u8
    ensures answer { Answered trace.now listing.old result written.new listing.new }
    ensures promises { result ≡ 0 → FilePromises trace.now }
{
    match replay(heap, trace, listing) {
        Ok(end) => {
            *written = end;
            0
        }
        Err(unlisted) => {
            *written = 0;
            unlisted.number().unwrap_or(NO_MEMORY)
        }
    }
}
