//! Parts of the caller's bytes.

ghost use Rattle.std.specs.Prelude.{◌≡◌, ◌+◌, ◌/◌, ◌^◌, ◌<◌, ◌≤◌, length, map};
ghost use Rattle.files.specs.Parts.{part, part_of, placed};
ghost use Rattle.files.specs.Reading.{pieces};

use fields::get::cut;
use records::record::FixedRecord;

/// A body: a part of the file, and where it begins.
#[derive(Clone, Copy)]
pub struct Body<'a> {
    pub offset: u32,
    pub bytes: &'a [u8],
}

/// A record, or its bytes, and where it stands in the file.
#[derive(Clone, Copy)]
pub struct Placed<T> {
    pub offset: usize,
    pub value: T,
}

impl<'a> Body<'a> {
    pub fn of(bytes: &'a [u8], offset: usize, size: usize) -> Body<'a>
        requires within { offset + size ≤ length bytes.now }
        requires low { offset < 2 ^ 32 }
        ensures value { part_of result ≡ part offset size bytes.now }
        ensures len { length result.bytes.now ≡ size }
    {
        Body {
            offset: offset as u32,
            bytes: cut(bytes, offset, size),
        }
    }

    /// The bytes of each record, in a body of records of `N` bytes. There are none of 0 bytes.
    pub fn pieces<const N: usize>(&self) -> &'a [[u8; N]]
        ensures value { result.now ≡ pieces N self.now.bytes.now }
        ensures len { length result.now ≡ length self.now.bytes.now / N }
    {
        if N == 0 {
            return &[];
        }
        let bytes = self.bytes;
        bytes.as_chunks().0
    }

    /// How many records of a kind there are.
    pub fn count<const N: usize, R: FixedRecord<N>>(&self) -> usize
        ensures { result ≡ length (map R.FixedRecord.parsed (pieces N self.now.bytes.now)) }
    {
        self.pieces::<N>().len()
    }

    /// The record of a kind at that index.
    pub fn record<const N: usize, R: FixedRecord<N>>(&self, index: usize) -> Option<Placed<R>>
        ensures { result ≡ placed self.now.offset N (map R.FixedRecord.parsed (pieces N self.now.bytes.now)) index }
    {
        let bytes = self.pieces::<N>().get(index)?;
        Some(Placed {
            offset: self.offset as usize + N * index,
            value: R::of(bytes),
        })
    }
}
