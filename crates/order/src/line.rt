//! One line of a workload.

ghost use Rattle.std.specs.Prelude.{◌≡◌};
ghost use Rattle.order.specs.Entries.{limit_entry, request_entry};

use pools::rule::Reason;
use std::error::Error;
use std::fmt;
use std::num::ParseIntError;

/// Sectors are numbered below this.
const SECTORS: u64 = 1 << 40;

/// What a line says.
#[derive(Drop)]
pub(crate) enum Line {
    /// The head stands at this sector.
    Head(u64),
    /// A request waits behind those before it.
    Request { first: u64, size: u16 },
    /// The rules are asked for budgets up to this limit.
    Rule(u32),
    /// A turn ended.
    Ended(Reason),
}

/// A line that says nothing that can be read.
#[derive(Clone, Copy, Debug)]
pub(crate) struct Unreadable;

impl fmt::Display for Unreadable {
    fn fmt<W: fmt::Write>(&self, f: &mut fmt::Formatter<W>) -> fmt::Result {
        f.write_str("cannot be read")
    }
}

impl Error for Unreadable {}

impl From<ParseIntError> for Unreadable {
    fn from(_: ParseIntError) -> Unreadable {
        Unreadable
    }
}

impl Line {
    /// None for a blank line and for a comment.
    // No `FromStr`, since a blank line has no value.
    pub(crate) fn parse(text: &str) -> Result<Option<Line>, Unreadable> {
        let mut words = text.split_whitespace();
        let Some(first) = words.next().filter(|word| !word.starts_with('#')) else {
            return Ok(None);
        };
        // One word after the other, since each call past the last word goes over the blanks behind it again.
        let line = match first {
            "head" => Line::Head(number(words.next())?),
            "request" => {
                request(number(words.next())?, number(words.next())?).ok_or(Unreadable)?
            }
            "rule" => limit(number(words.next())?).ok_or(Unreadable)?,
            "reason" => Line::Ended(words.next().and_then(reason).ok_or(Unreadable)?),
            _ => return Err(Unreadable),
        };
        match words.next() {
            None => Ok(Some(line)),
            Some(_) => Err(Unreadable),
        }
    }
}

fn number(word: Option<&str>) -> Result<u64, Unreadable> {
    Ok(word.ok_or(Unreadable)?.parse()?)
}

// `FromStr` cannot be written here, since neither the trait nor `Reason` is this program's own.
fn reason(word: &str) -> Option<Reason> {
    match word {
        "exhausted" => Some(Reason::Exhausted),
        "hold" => Some(Reason::HoldRanOut),
        "dry" => Some(Reason::RanDry),
        _ => None,
    }
}

/// A request of 1 to 256 sectors that ends by sector 2^40.
fn request(first: u64, size: u64) -> Option<Line>
    ensures { result ≡ request_entry first size }
{
    if !(1..=256).contains(&size) || first > SECTORS - size {
        return None;
    }
    Some(Line::Request {
        first,
        size: size as u16,
    })
}

/// A limit of 256 to 65,536 sectors.
fn limit(sectors: u64) -> Option<Line>
    ensures { result ≡ limit_entry sectors }
{
    if !(256..=65536).contains(&sectors) {
        return None;
    }
    Some(Line::Rule(sectors as u32))
}
