//! The codes of the file, each with its meaning.

ghost use Rattle.std.specs.Prelude.{◌≡◌, Some, ok_or};
ghost use Rattle.records.specs.Codes.{rule_of, rule_code, pool_of, pool_code, event_of, event_code, event_argument};
ghost use Rattle.records.specs.Words.{unknown_text};

use crate::tables::{Event, PoolCode, RuleCode};
use std::error::Error;
use std::fmt;

/// A code that has no meaning.
#[derive(Clone, Copy, Debug, PartialEq, Eq)]
pub struct UnknownCode(pub u8);

impl fmt::Display for UnknownCode {
    ghost output = { λ unknown. Some (unknown_text unknown.0) };

    fn fmt<W: fmt::Write>(&self, f: &mut fmt::Formatter<W>) -> fmt::Result {
        write!(f, "the code {} has no meaning", self.0)
    }
}

impl Error for UnknownCode {}

impl TryFrom<u8> for RuleCode {
    type Error = UnknownCode;

    ghost try_from_gives = { λ code r. r ≡ ok_or (rule_of code) (record { 0 = code }) };

    fn try_from(code: u8) -> Result<RuleCode, UnknownCode> {
        match code {
            0 => Ok(RuleCode::Steady),
            1 => Ok(RuleCode::Feedback),
            _ => Err(UnknownCode(code)),
        }
    }
}

impl From<RuleCode> for u8 {
    ghost from_gives = { λ rule n. n ≡ rule_code rule };

    fn from(rule: RuleCode) -> u8 {
        match rule {
            RuleCode::Steady => 0,
            RuleCode::Feedback => 1,
        }
    }
}

impl TryFrom<u8> for PoolCode {
    type Error = UnknownCode;

    ghost try_from_gives = { λ code r. r ≡ ok_or (pool_of code) (record { 0 = code }) };

    fn try_from(code: u8) -> Result<PoolCode, UnknownCode> {
        match code {
            0 => Ok(PoolCode::FirstCome),
            1 => Ok(PoolCode::CLook),
            _ => Err(UnknownCode(code)),
        }
    }
}

impl From<PoolCode> for u8 {
    ghost from_gives = { λ pool n. n ≡ pool_code pool };

    fn from(pool: PoolCode) -> u8 {
        match pool {
            PoolCode::FirstCome => 0,
            PoolCode::CLook => 1,
        }
    }
}

impl Event {
    /// An event by its code and its argument, which is zero but for an arrival.
    // An event stands in two fields, so TryFrom would take a pair and its error name both: no plainer than two parameters.
    pub fn of(code: u8, argument: u32) -> Option<Event>
        ensures { result ≡ event_of code argument }
    {
        if code == 1 {
            return Some(Event::Arrival(argument));
        }
        if argument != 0 {
            return None;
        }
        match code {
            2 => Some(Event::Dispatch),
            3 => Some(Event::Completion),
            4 => Some(Event::Tick),
            _ => None,
        }
    }

    /// The byte by which a file has the event.
    // No `From`: in a file an event is two numbers, its code and its argument.
    pub fn code(self) -> u8
        ensures { result ≡ event_code self }
    {
        match self {
            Event::Arrival(_) => 1,
            Event::Dispatch => 2,
            Event::Completion => 3,
            Event::Tick => 4,
        }
    }

    /// The request that an arrival names; of any other event 0.
    pub fn argument(self) -> u32
        ensures { result ≡ event_argument self }
    {
        match self {
            Event::Arrival(request) => request,
            _ => 0,
        }
    }
}
