//! The kinds of record: what is put into a buffer, and what is read again besides.

ghost use Rattle.std.specs.Prelude.{◌≡◌, ℕ, ◌+◌, ◌<◌, ◌≤◌, Bool, List, length};
ghost use Rattle.fields.specs.Buffers.{put};

/// What can be laid out in bytes.
pub trait Record {
    ghost laid: { Self → List ℕ };

    // each number lies within its field
    ghost fits: { Self → Type 0 };

    /// Puts the record into a buffer, and answers where it ended.
    fn put(self, out: &mut [u8], at: usize) -> usize
        requires { at + length (laid self) ≤ length out.old }
        ensures end { result ≡ at + length (laid self) }
        ensures after { out.new ≡ put at (laid self) out.old }
        ensures within { fits self };
}

/// What is laid out in `N` bytes, and read again.
// A trait of its own: what is only put may have any length, and need not be read.
pub trait FixedRecord<const N: usize>: Record + Copy {
    // the record that bytes hold, and whether they hold one
    ghost parsed: { List ℕ → Self };

    ghost sound: { List ℕ → Bool };

    /// Whether bytes hold a record.
    // Each impl tests byte by byte, as the table of the format has them.
    fn is_sound(bytes: &[u8; N]) -> bool
        ensures { result ≡ sound bytes.now };

    /// The record that bytes hold.
    // Not one Option with the test: a file's records are judged once, and then each reading would have to answer for a None that cannot come.
    fn of(bytes: &[u8; N]) -> Self
        ensures { result ≡ parsed bytes.now };

    ghost long: { (r : Self) → length (Self.laid r) ≡ N };

    ghost width: { (0 < N) × (N ≤ 16) };
}
