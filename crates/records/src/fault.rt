//! What is wrong with a trace, and where.

ghost use Rattle.std.specs.Prelude.{◌≡◌, Some};
ghost use Rattle.records.specs.Faults.{cause_number, fault, layer_number};
ghost use Rattle.records.specs.Words.{layout_sentence, sentence};

use std::error::Error;
use std::fmt;

/// How far a reader had come: the contents at the file's head, then each record by itself, then the
/// roster that the records make.
#[derive(Clone, Copy, Debug, PartialEq, Eq)]
pub enum Layer {
    Contents,
    Records,
    Roster,
}

/// The causes, each with the number by which the outside knows it.
#[derive(Clone, Copy, Debug, PartialEq, Eq)]
pub enum Cause {
    /// The file ends before its contents do.
    TooShort,
    /// A body does not begin where it should, has a record too many, or the file does not end with the last.
    Layout,
    /// A byte that must be zero is not, or a code has no meaning.
    Byte,
    /// An arrival names a request that is not there.
    NoRequest,
    /// The hold is not 1 to 1,000,000 ticks.
    Hold,
    /// The weight is not 1 to 10.
    Weight,
    /// The limit is not 256 to 65,536.
    Limit,
    /// The buffer is too short for the file.
    Buffer,
}

/// A layer, a cause, and a place: an entry's index, a record's offset in the file, or an application's number.
// Not a variant for each layer: the listing and the programs give every fault as the same three numbers.
#[derive(Clone, Copy, Debug, PartialEq, Eq)]
pub struct Fault {
    pub layer: Layer,
    pub number: Cause,
    pub place: usize,
}

impl Fault {
    pub fn new(layer: Layer, number: Cause, place: usize) -> Fault
        ensures { result ≡ fault layer number place }
    {
        Fault {
            layer,
            number,
            place,
        }
    }
}

impl From<Layer> for u8 {
    ghost from_gives = { λ layer n. n ≡ layer_number layer };

    fn from(layer: Layer) -> u8 {
        match layer {
            Layer::Contents => 1,
            Layer::Records => 2,
            Layer::Roster => 3,
        }
    }
}

impl From<Cause> for u8 {
    ghost from_gives = { λ cause n. n ≡ cause_number cause };

    fn from(cause: Cause) -> u8 {
        match cause {
            Cause::Weight => 2,
            Cause::Limit => 3,
            Cause::Hold => 4,
            Cause::TooShort => 13,
            Cause::Layout => 14,
            Cause::Byte => 15,
            Cause::NoRequest => 16,
            Cause::Buffer => 18,
        }
    }
}

impl fmt::Display for Fault {
    ghost output = { λ fault. Some (sentence fault) };

    fn fmt<W: fmt::Write>(&self, f: &mut fmt::Formatter<W>) -> fmt::Result {
        f.write_str(match self.number {
            Cause::TooShort => "The file ends before its contents do.",
            Cause::Layout => layout_sentence(self.place),
            Cause::Byte =>
                "In the record at that byte a code has no meaning, or a byte that must be zero is not.",
            Cause::NoRequest => "The arrival at that byte names a request that is not there.",
            Cause::Hold => "The hold is not 1 to 1,000,000 ticks.",
            Cause::Weight => "The weight of that application is not 1 to 10.",
            Cause::Limit => "The limit of that application is not 256 to 65,536 sectors.",
            Cause::Buffer => "The buffer is too short for the file.",
        })
    }
}

impl Error for Fault {}

fn layout_sentence(place: usize) -> &'static str
    ensures { result.now ≡ layout_sentence place }
{
    match place {
        0 => "The settings do not begin at byte 32, or are not one record.",
        1 => "The applications do not begin where the settings end, or are more than 15.",
        2 => "The requests do not begin where the applications end, or are more than 960.",
        3 => "The events do not begin where the requests end, or are more than 960.",
        _ => "The file does not end with its last event.",
    }
}
