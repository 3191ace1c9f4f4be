//! What a script asks for, and what comes of it.

ghost use Rattle.std.specs.Prelude.{◌≡◌, Some};
ghost use Rattle.driver.specs.Runs.{refused_number, time_of};
ghost use Rattle.driver.specs.Words.{answer_text, refused_text};
ghost use Rattle.driver.specs.declared.command.Refused.TheVariants as F;

use machine::refusal::Refusal;
use pools::request::{Kind, Request};
use std::error::Error;
use std::fmt;

/// A call of a script. A completion is of the request in flight.
#[derive(Clone, Copy, Debug, PartialEq, Eq)]
pub enum Command {
    Arrival {
        time: u64,
        application: u8,
        first: u64,
        size: u16,
        kind: Kind,
    },
    Dispatch(u64),
    Completion(u64),
    Tick(u64),
}

impl Command {
    /// The time that the command brings.
    pub fn time(self) -> u64
        ensures { result ≡ time_of self }
    {
        match self {
            Command::Arrival { time, .. } => time,
            Command::Dispatch(time) | Command::Completion(time) | Command::Tick(time) => time,
        }
    }
}

/// What an accepted call came to.
#[derive(Clone, Copy, Debug, PartialEq, Eq)]
pub enum Answer {
    /// The request was accepted, under this number.
    Accepted(u64),
    /// This request went to the disk.
    Sent(Request),
    /// The disk is held for the application until then.
    Held { application: u8, until: u64 },
    /// Nobody wants the disk.
    Nothing,
    /// The request of this number is done.
    Done(u64),
    Ticked,
}

impl fmt::Display for Answer {
    ghost output = { λ a. Some (answer_text a) };

    fn fmt<W: fmt::Write>(&self, f: &mut fmt::Formatter<W>) -> fmt::Result {
        match self {
            Answer::Accepted(number) => write!(f, "arrive {number}"),
            Answer::Sent(request) => {
                let Request {
                    number,
                    application,
                    first,
                    size,
                    ..
                } = request;
                write!(f, "send {application} {number} {first} {size}")
            }
            Answer::Held { application, until } => write!(f, "hold {application} {until}"),
            Answer::Nothing => f.write_str("none"),
            Answer::Done(number) => write!(f, "done {number}"),
            Answer::Ticked => f.write_str("tick"),
        }
    }
}

/// Why a command came to nothing.
#[derive(Clone, Copy, Debug, PartialEq, Eq)]
pub enum Refused {
    /// The scheduler refused the call.
    Call(Refusal),
    /// A completion where no token is held: there is nothing to call.
    NoToken,
}

/// What a command came to.
pub type Outcome = Result<Answer, Refused>;

impl From<Refusal> for Refused {
    ghost from_gives = { λ r f. f ≡ F.Call r };

    fn from(refusal: Refusal) -> Refused {
        Refused::Call(refusal)
    }
}

impl From<Refused> for u8 {
    ghost from_gives = { λ r n. n ≡ refused_number r };

    fn from(refused: Refused) -> u8 {
        match refused {
            Refused::Call(reason) => u8::from(reason),
            Refused::NoToken => 17,
        }
    }
}

impl fmt::Display for Refused {
    ghost output = { λ r. Some (refused_text r) };

    fn fmt<W: fmt::Write>(&self, f: &mut fmt::Formatter<W>) -> fmt::Result {
        write!(f, "refuse {}", u8::from(*self))
    }
}

impl Error for Refused {}
