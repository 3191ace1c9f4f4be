//! One line of a script.

use driver::command::Command;
use pools::request::Kind;
use records::tables::{PoolCode, RuleCode};
use std::error::Error;
use std::fmt;
use std::num::TryFromIntError;

/// What a line asks for.
// The lines `hold` and `app` stand in `sheet` too: the two programs read two languages, each with its own complaint.
#[derive(Clone, Copy)]
pub enum Line {
    Hold(u32),
    Application { weight: u8, limit: u32 },
    Pool(PoolCode),
    Rule(RuleCode),
    Call(Command),
}

/// A line that asks for nothing known.
#[derive(Clone, Copy, Debug)]
pub struct Unreadable;

impl fmt::Display for Unreadable {
    fn fmt<W: fmt::Write>(&self, f: &mut fmt::Formatter<W>) -> fmt::Result {
        f.write_str("not understood")
    }
}

impl Error for Unreadable {}

impl Line {
    /// None for a blank line and for a comment.
    // No `FromStr`, since a blank line has no value.
    pub fn parse(text: &str) -> Result<Option<Line>, Unreadable> {
        let mut words = text.split_whitespace();
        let Some(first) = words.next().filter(|word| !word.starts_with('#')) else {
            return Ok(None);
        };
        // One word after the other: a match of all seven at once, as `sheet` has for its four, was tried, and its check did not end in three minutes.
        let line = match first {
            "hold" => Line::Hold(number(words.next(), u32::MAX)?),
            "app" => Line::Application {
                weight: number(words.next(), u8::MAX)?,
                limit: number(words.next(), u32::MAX)?,
            },
            "pool" => Line::Pool(pool(words.next())?),
            "rule" => Line::Rule(rule(words.next())?),
            "arrive" => Line::Call(Command::Arrival {
                time: number(words.next(), u64::MAX)?,
                application: number(words.next(), u8::MAX)?,
                first: number(words.next(), u64::MAX)?,
                size: number(words.next(), u16::MAX)?,
                kind: kind(words.next())?,
            }),
            "dispatch" => Line::Call(Command::Dispatch(number(words.next(), u64::MAX)?)),
            "complete" => Line::Call(Command::Completion(number(words.next(), u64::MAX)?)),
            "tick" => Line::Call(Command::Tick(number(words.next(), u64::MAX)?)),
            _ => return Err(Unreadable),
        };
        match words.next() {
            None => Ok(Some(line)),
            Some(_) => Err(Unreadable),
        }
    }
}

/// The number that a word says. One too large for its field is cut down to the largest that fits, which is
/// refused as the number itself would be.
fn number<T: TryFrom<u64, Error = TryFromIntError> + Drop>(
    word: Option<&str>,
    most: T,
) -> Result<T, Unreadable> {
    let n = word
        .and_then(|word| word.parse::<u64>().ok())
        .ok_or(Unreadable)?;
    Ok(T::try_from(n).unwrap_or(most))
}

// `FromStr` cannot be written here, since neither the trait nor `PoolCode` is this program's own.
fn pool(word: Option<&str>) -> Result<PoolCode, Unreadable> {
    match word {
        Some("first-come") => Ok(PoolCode::FirstCome),
        Some("c-look") => Ok(PoolCode::CLook),
        _ => Err(Unreadable),
    }
}

// `FromStr` cannot be written here, since neither the trait nor `RuleCode` is this program's own.
fn rule(word: Option<&str>) -> Result<RuleCode, Unreadable> {
    match word {
        Some("steady") => Ok(RuleCode::Steady),
        Some("feedback") => Ok(RuleCode::Feedback),
        _ => Err(Unreadable),
    }
}

// `FromStr` cannot be written here, since neither the trait nor `Kind` is this program's own.
fn kind(word: Option<&str>) -> Result<Kind, Unreadable> {
    match word {
        Some("sync") => Ok(Kind::Synchronous),
        Some("async") => Ok(Kind::Asynchronous),
        _ => Err(Unreadable),
    }
}
