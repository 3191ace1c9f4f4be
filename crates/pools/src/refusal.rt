//! Why a pool refuses a request.

ghost use Rattle.std.specs.Prelude.{◌≡◌, Some};
ghost use Rattle.pools.specs.Refusals.{number, reason};

use std::error::Error;
use std::fmt;

/// The reasons, each with the number by which the outside knows it.
// Its own and not the scheduler's: a put is refused for no other reason, and its type says so.
#[derive(Clone, Copy, Debug, PartialEq, Eq)]
pub enum Refusal {
    /// There is no such application.
    Unknown,
    /// Sixteen requests of the application wait already.
    Full,
}

impl From<Refusal> for u8 {
    ghost from_gives = { λ refusal n. n ≡ number refusal };

    fn from(refusal: Refusal) -> u8 {
        match refusal {
            Refusal::Unknown => 6,
            Refusal::Full => 9,
        }
    }
}

impl fmt::Display for Refusal {
    ghost output = { λ refusal. Some (reason refusal) };

    fn fmt<W: fmt::Write>(&self, f: &mut fmt::Formatter<W>) -> fmt::Result {
        f.write_str(match self {
            Refusal::Unknown => "there is no such application",
            Refusal::Full => "sixteen requests of the application wait already",
        })
    }
}

impl Error for Refusal {}
