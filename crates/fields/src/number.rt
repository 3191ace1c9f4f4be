//! The numbers that stand in files, and their bytes.

ghost use Rattle.std.specs.Prelude.{◌≡◌, ℕ};
ghost use Rattle.fields.specs.Numbers.{number, bytes};

/// An unsigned number of `N` bytes.
pub trait Field<const N: usize>: Copy {
    ghost value: { Self → ℕ };

    fn from_bytes(bytes: &[u8; N]) -> Self
        ensures { value result ≡ number bytes.now };

    fn to_bytes(self) -> [u8; N]
        ensures { result ≡ bytes N (value self) };
}

impl Field<2> for u16 {
    ghost value = { λ x. x };

    fn from_bytes(bytes: &[u8; 2]) -> u16 {
        u16::from_le_bytes(*bytes)
    }

    fn to_bytes(self) -> [u8; 2] {
        u16::to_le_bytes(self)
    }
}

impl Field<4> for u32 {
    ghost value = { λ x. x };

    fn from_bytes(bytes: &[u8; 4]) -> u32 {
        u32::from_le_bytes(*bytes)
    }

    fn to_bytes(self) -> [u8; 4] {
        u32::to_le_bytes(self)
    }
}

impl Field<8> for u64 {
    ghost value = { λ x. x };

    fn from_bytes(bytes: &[u8; 8]) -> u64 {
        u64::from_le_bytes(*bytes)
    }

    fn to_bytes(self) -> [u8; 8] {
        u64::to_le_bytes(self)
    }
}
