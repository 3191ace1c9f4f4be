//! Why a line adds nothing to a workload.

ghost use Rattle.std.specs.Prelude.{◌≡◌, alloc_error};
ghost use Rattle.order.specs.declared.fault.Fault.TheVariants.{OutOfMemory};

use crate::line::Unreadable;
use std::alloc::{AllocError, AllocFailed};
use std::error::Error;
use std::io::ErrorKind;
use std::{fmt, io};

#[derive(Debug, Drop)]
pub(crate) enum Fault {
    /// The line says nothing that can be read.
    Unreadable(Unreadable),
    /// Sixteen requests wait already.
    NoRoom,
    /// There is no memory for it.
    OutOfMemory(AllocError),
    /// The input failed.
    Input(io::Error),
}

impl From<Unreadable> for Fault {
    fn from(unreadable: Unreadable) -> Fault {
        Fault::Unreadable(unreadable)
    }
}

impl From<io::Error> for Fault {
    /// A line that is no text at all is one that cannot be read.
    fn from(error: io::Error) -> Fault {
        match error.kind() {
            ErrorKind::InvalidData => Fault::Unreadable(Unreadable),
            _ => Fault::Input(error),
        }
    }
}

impl<T: Drop> From<AllocFailed<T>> for Fault {
    ghost from_gives = { λ _ fault. fault ≡ OutOfMemory alloc_error };

    fn from(failed: AllocFailed<T>) -> Fault {
        Fault::OutOfMemory(AllocError::from(failed))
    }
}

impl fmt::Display for Fault {
    fn fmt<W: fmt::Write>(&self, f: &mut fmt::Formatter<W>) -> fmt::Result {
        match self {
            Fault::Unreadable(unreadable) => unreadable.fmt(f),
            Fault::NoRoom => f.write_str("no room for more than sixteen requests"),
            Fault::OutOfMemory(error) => error.fmt(f),
            Fault::Input(error) => error.fmt(f),
        }
    }
}

impl Error for Fault {}
