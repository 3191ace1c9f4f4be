//! Numbers and lists of bytes put into a buffer. Each function answers where it ended.

ghost use Rattle.std.specs.Prelude.{◌≡◌, ◌+◌, ◌≤◌, length};
ghost use Rattle.fields.specs.Numbers.{bytes};
ghost use Rattle.fields.specs.Buffers.{put};

use crate::number::Field;

/// Puts bytes from a place on.
// A buffer and a place, and no struct of both: one that held the `&mut` would need a clause in each contract that it is still the same buffer.
#[tactic(auto, using(crate::proofs::Puts::part_put))]
pub fn put_bytes(out: &mut [u8], at: usize, more: &[u8]) -> usize
    requires { at + length more.now ≤ length out.old }
    ensures end { result ≡ at + length more.now }
    ensures after { out.new ≡ put at more.now out.old }
{
    let end = at + more.len();
    out[at..end].copy_from_slice(more);
    end
}

/// Puts a number in as many bytes as its type has.
pub fn put<const N: usize, F: Field<N>>(out: &mut [u8], at: usize, number: F) -> usize
    requires { at + N ≤ length out.old }
    ensures end { result ≡ at + N }
    ensures after { out.new ≡ put at (bytes N (F.value number)) out.old }
{
    put_bytes(out, at, &number.to_bytes())
}
