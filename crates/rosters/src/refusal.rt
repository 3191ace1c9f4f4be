//! Why a roster refuses a call.

ghost use Rattle.std.specs.Prelude.{◌≡◌, Some};
ghost use Rattle.rosters.specs.Refusals.{number, words};

use std::error::Error;
use std::fmt;

/// The reasons, each with the number by which the outside knows it.
#[derive(Clone, Copy, Debug, PartialEq, Eq)]
pub enum Refusal {
    /// Sixteen applications stand already.
    Full,
    /// The weight is not 1 to 10.
    Weight,
    /// The limit is not 256 to 65,536.
    Limit,
    /// The hold is not 1 to 1,000,000 ticks.
    Hold,
}

impl From<Refusal> for u8 {
    ghost from_gives = { λ r n. n ≡ number r };

    fn from(refusal: Refusal) -> u8 {
        match refusal {
            Refusal::Full => 1,
            Refusal::Weight => 2,
            Refusal::Limit => 3,
            Refusal::Hold => 4,
        }
    }
}

impl fmt::Display for Refusal {
    ghost output = { λ r. Some (words r) };

    fn fmt<W: fmt::Write>(&self, f: &mut fmt::Formatter<W>) -> fmt::Result {
        f.write_str(match self {
            Refusal::Full => "sixteen applications are on the roster already",
            Refusal::Weight => "a weight is 1 to 10",
            Refusal::Limit => "a limit is 256 to 65536 sectors",
            Refusal::Hold => "a hold is 1 to 1000000 ticks",
        })
    }
}

impl Error for Refusal {}
