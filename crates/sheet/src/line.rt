//! One line of a roster's text.

use std::error::Error;
use std::fmt;
use std::num::ParseIntError;

/// What a line asks for. Numbers too large for a roster's fields are cut down to the largest that fits,
/// which the roster refuses as it would the number itself.
// Both lines stand in `play` too: the two programs read two languages, each with its own complaint.
#[derive(Clone, Copy, Debug, PartialEq, Eq)]
pub enum Line {
    /// `hold TICKS`
    Hold(u32),
    /// `app WEIGHT LIMIT`
    Application { weight: u8, limit: u32 },
}

/// A line that asks for neither.
#[derive(Clone, Copy, Debug, PartialEq, Eq)]
pub struct Unreadable;

impl fmt::Display for Unreadable {
    fn fmt<W: fmt::Write>(&self, f: &mut fmt::Formatter<W>) -> fmt::Result {
        f.write_str("neither 'hold TICKS' nor 'app WEIGHT LIMIT'")
    }
}

impl Error for Unreadable {}

impl From<ParseIntError> for Unreadable {
    fn from(_: ParseIntError) -> Unreadable {
        Unreadable
    }
}

impl Line {
    /// None for a blank line and for a comment.
    // No `FromStr`, since a blank line has no value.
    pub fn parse(text: &str) -> Result<Option<Line>, Unreadable> {
        let mut words = text.split_whitespace();
        let Some(first) = words.next().filter(|word| !word.starts_with('#')) else {
            return Ok(None);
        };
        match (first, words.next(), words.next(), words.next()) {
            ("hold", Some(ticks), None, None) => Ok(Some(Line::Hold(short(ticks.parse()?)))),
            ("app", Some(weight), Some(limit), None) => Ok(Some(Line::Application {
                weight: u8::try_from(weight.parse::<u64>()?).unwrap_or(u8::MAX),
                limit: short(limit.parse()?),
            })),
            _ => Err(Unreadable),
        }
    }
}

fn short(n: u64) -> u32 {
    u32::try_from(n).unwrap_or(u32::MAX)
}
