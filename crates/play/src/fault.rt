//! Why a line is not entered.

use crate::line::Unreadable;
use rosters::refusal::Refusal;
use std::alloc::{AllocError, AllocFailed};
use std::error::Error;
use std::fmt;

#[derive(Clone, Copy, Debug)]
pub enum Fault {
    /// The line asks for nothing known.
    Unreadable(Unreadable),
    /// The roster does not take it.
    Refused(Refusal),
    /// There is no memory for it.
    OutOfMemory(AllocError),
}

impl From<Unreadable> for Fault {
    fn from(unreadable: Unreadable) -> Fault {
        Fault::Unreadable(unreadable)
    }
}

impl From<Refusal> for Fault {
    fn from(refusal: Refusal) -> Fault {
        Fault::Refused(refusal)
    }
}

impl<T: Drop> From<AllocFailed<T>> for Fault {
    fn from(failed: AllocFailed<T>) -> Fault {
        Fault::OutOfMemory(AllocError::from(failed))
    }
}

impl fmt::Display for Fault {
    fn fmt<W: fmt::Write>(&self, f: &mut fmt::Formatter<W>) -> fmt::Result {
        match self {
            Fault::Unreadable(unreadable) => unreadable.fmt(f),
            Fault::Refused(refusal) => write!(f, "refused ({}): {refusal}", u8::from(*refusal)),
            Fault::OutOfMemory(error) => error.fmt(f),
        }
    }
}

impl Error for Fault {}
