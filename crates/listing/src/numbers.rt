//! Decimal numbers put into a buffer from a place on. Each function answers where it ended.

ghost use Rattle.std.specs.Prelude.{◌≡◌, suc, ◌+◌, ◌≤◌, ◌∷◌, map, length, decimal};
ghost use Rattle.fields.specs.Buffers.{put};
ghost use Rattle.listing.specs.Lines.{spaced};

use fields::put::put_bytes;
use itoa::write_digits;

/// The digits go straight to their places.
// Not by itoa's `Buffer`, whose text is copied once more: a replay then takes 657 instructions for an event and not 538, and is to take at most 1.1 times the 445 of plain Rust.
pub(crate) fn put_decimal(out: &mut [u8], at: usize, number: u64) -> usize
    requires { at + length (decimal number) ≤ length out.old }
    ensures end { result ≡ at + length (decimal number) }
    ensures after { out.new ≡ put at (decimal number) out.old }
{
    let end = at + width(number);
    write_digits(number, out, end);
    end
}

/// How many digits a number has.
fn width(number: u64) -> usize
    ensures { result ≡ length (decimal number) }
{
    match number.checked_ilog10() {
        Some(power) => power as usize + 1,
        None => 1,
    }
}

/// The rest of a line: each number behind a space, and the newline.
pub(crate) fn put_numbers(out: &mut [u8], at: usize, numbers: &[u64]) -> usize
    requires { at + length (spaced (map decimal numbers.now)) ≤ length out.old }
    ensures end { result ≡ at + length (spaced (map decimal numbers.now)) }
    ensures after { out.new ≡ put at (spaced (map decimal numbers.now)) out.old }
{
    let mut end = at;
    for number in numbers {
        end = put_number(out, end, *number);
    }
    put_bytes(out, end, b"\n")
}

/// A number behind a space.
fn put_number(out: &mut [u8], at: usize, number: u64) -> usize
    requires { at + suc (length (decimal number)) ≤ length out.old }
    ensures end { result ≡ at + suc (length (decimal number)) }
    ensures after { out.new ≡ put at (32 ∷ decimal number) out.old }
{
    let end = put_bytes(out, at, b" ");
    put_decimal(out, end, number)
}
