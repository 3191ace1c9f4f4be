//! Parts of a slice, and numbers read from it.

ghost use Rattle.std.specs.Prelude.{◌≡◌, ◌+◌, ◌≤◌, length, take, drop};
ghost use Rattle.fields.specs.Numbers.{field};

use crate::number::Field;

/// The `size` bytes of a slice from a place on.
pub fn cut(bytes: &[u8], at: usize, size: usize) -> &[u8]
    requires { at + size ≤ length bytes.now }
    ensures value { result.now ≡ take size (drop at bytes.now) }
    ensures len { length result.now ≡ size }
{
    &bytes[at..at + size]
}

/// The number in the bytes from a place on, as many as its type has.
pub fn get<const N: usize, F: Field<N>>(bytes: &[u8], at: usize) -> F
    requires { at + N ≤ length bytes.now }
    ensures { F.value result ≡ field at N bytes.now }
{
    F::from_bytes(cut(bytes, at, N).as_array().unwrap())
}
