//! A request for sectors of the disk.

ghost use Rattle.std.specs.Prelude.{◌≡◌, Some, ok_or};
ghost use Rattle.pools.specs.Codes.{kind_code, kind_name, kind_of, unknown_text};

use std::error::Error;
use std::fmt;

/// Whether the application waits for a request to be done before it asks for more.
#[derive(Clone, Copy, Debug, PartialEq, Eq)]
pub enum Kind {
    Asynchronous,
    Synchronous,
}

/// A code that names no kind.
#[derive(Clone, Copy, Debug, PartialEq, Eq)]
pub struct UnknownKind(pub u8);

impl TryFrom<u8> for Kind {
    type Error = UnknownKind;

    ghost try_from_gives = { λ code r. r ≡ ok_or (kind_of code) (record { 0 = code }) };

    fn try_from(code: u8) -> Result<Kind, UnknownKind> {
        match code {
            0 => Ok(Kind::Asynchronous),
            1 => Ok(Kind::Synchronous),
            _ => Err(UnknownKind(code)),
        }
    }
}

impl From<Kind> for u8 {
    ghost from_gives = { λ kind n. n ≡ kind_code kind };

    fn from(kind: Kind) -> u8 {
        match kind {
            Kind::Asynchronous => 0,
            Kind::Synchronous => 1,
        }
    }
}

impl fmt::Display for Kind {
    ghost output = { λ kind. Some (kind_name kind) };

    fn fmt<W: fmt::Write>(&self, f: &mut fmt::Formatter<W>) -> fmt::Result {
        f.write_str(match self {
            Kind::Asynchronous => "asynchronous",
            Kind::Synchronous => "synchronous",
        })
    }
}

impl fmt::Display for UnknownKind {
    ghost output = { λ unknown. Some (unknown_text unknown.0) };

    fn fmt<W: fmt::Write>(&self, f: &mut fmt::Formatter<W>) -> fmt::Result {
        write!(f, "no kind of request has code {}", self.0)
    }
}

impl Error for UnknownKind {}

/// A number of its own, who asks, and for which sectors.
#[derive(Clone, Copy, Debug, PartialEq, Eq)]
pub struct Request {
    pub number: u64,
    pub application: u8,
    /// The first sector.
    pub first: u64,
    /// How many sectors.
    pub size: u16,
    pub kind: Kind,
}
