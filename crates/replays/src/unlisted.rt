//! Why a trace was not listed.

ghost use Rattle.std.specs.Prelude.{◌≡◌, Some};
ghost use Rattle.replays.specs.Replays.{number, words};
ghost use Rattle.replays.specs.declared.unlisted.Unlisted.TheVariants.{Memory};

use std::alloc::AllocError;
use std::error::Error;
use std::fmt;

/// The two reasons; a file that has a fault is listed too.
#[derive(Clone, Copy, Debug, PartialEq, Eq)]
pub enum Unlisted {
    /// The buffer is under 62,464 bytes.
    Buffer,
    /// There is no memory for a roster or a pool.
    Memory,
}

impl Unlisted {
    /// The number by which the outside knows it. Want of memory has none.
    // No `From`, since one of the two has no number.
    pub fn number(self) -> Option<u8>
        ensures { result ≡ number self }
    {
        match self {
            Unlisted::Buffer => Some(18),
            Unlisted::Memory => None,
        }
    }
}

impl From<AllocError> for Unlisted {
    ghost from_gives = { λ _ r. r ≡ Memory };

    fn from(_e: AllocError) -> Unlisted {
        Unlisted::Memory
    }
}

impl fmt::Display for Unlisted {
    ghost output = { λ r. Some (words r) };

    fn fmt<W: fmt::Write>(&self, f: &mut fmt::Formatter<W>) -> fmt::Result {
        f.write_str(match self {
            Unlisted::Buffer => "refused (18): the buffer is too short",
            Unlisted::Memory => "there is no memory for the replay",
        })
    }
}

impl Error for Unlisted {}
