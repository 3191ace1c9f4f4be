//! Why a scheduler refuses a call.

ghost use Rattle.std.specs.Prelude.{◌≡◌, Some};
ghost use Rattle.machine.specs.Refusals.{number, words};

use std::error::Error;
use std::fmt;

/// The reasons, each with the number by which the outside knows it.
#[derive(Clone, Copy, Debug, PartialEq, Eq)]
pub enum Refusal {
    /// The time lies before the clock, or above 2^40.
    Time,
    /// There is no such application.
    Application,
    /// The size is not 1 to 256 sectors.
    Size,
    /// The request ends above sector 2^40.
    Sector,
    /// Sixteen requests of the application wait.
    Full,
    /// All accepted sizes together would pass 2^40.
    Total,
    /// A request is in flight.
    Busy,
    /// The token is not that of the request in flight.
    Token,
}

impl From<Refusal> for u8 {
    ghost from_gives = { λ r n. n ≡ number r };

    fn from(refusal: Refusal) -> u8 {
        match refusal {
            Refusal::Time => 5,
            Refusal::Application => 6,
            Refusal::Size => 7,
            Refusal::Sector => 8,
            Refusal::Full => 9,
            Refusal::Total => 10,
            Refusal::Busy => 11,
            Refusal::Token => 12,
        }
    }
}

impl fmt::Display for Refusal {
    ghost output = { λ r. Some (words r) };

    fn fmt<W: fmt::Write>(&self, f: &mut fmt::Formatter<W>) -> fmt::Result {
        f.write_str(match self {
            Refusal::Time => "the time lies before the clock, or above 2^40",
            Refusal::Application => "there is no such application",
            Refusal::Size => "a size is 1 to 256 sectors",
            Refusal::Sector => "the request ends above sector 2^40",
            Refusal::Full => "sixteen requests of the application wait already",
            Refusal::Total => "all accepted sizes together would pass 2^40 sectors",
            Refusal::Busy => "a request is in flight",
            Refusal::Token => "the token is not that of the request in flight",
        })
    }
}

impl Error for Refusal {}
