//! Records of any kind are put: longer than those of a file, of a length that depends on the value, and
//! of a type that is not copied. None of them can be read.

ghost use Rattle.std.specs.Prelude.{◌≡◌, ◌+◌, ◌<◌, ◌≤◌, [], ◌∷◌, length};
ghost use Rattle.fields.specs.Buffers.{put};
ghost use Rattle.bodies.specs.declared.tests.Mark.TheVariants.{Nothing, At};

use crate::put::put_table;
use fields::put::put_bytes;
use records::record::Record;

/// 24 bytes.
#[derive(Clone, Copy)]
struct Wide {
    bytes: [u8; 24],
}

impl Record for Wide {
    ghost laid = { λ wide. wide.bytes };

    ghost fits = { λ wide. length wide.bytes ≡ 24 };

    fn put(self, out: &mut [u8], at: usize) -> usize {
        put_bytes(out, at, &self.bytes)
    }
}

/// One byte, or two.
#[derive(Clone, Copy)]
enum Mark {
    Nothing,
    At(u8),
}

impl Record for Mark {
    ghost laid = { elim [ Nothing ↦ 0 ∷ [] | At place ↦ 1 ∷ place ∷ [] ] };

    ghost fits = { elim [ Nothing ↦ 0 < 1 | At place ↦ place < 256 ] };

    fn put(self, out: &mut [u8], at: usize) -> usize {
        match self {
            Mark::Nothing => put_bytes(out, at, &[0]),
            Mark::At(place) => put_bytes(out, at, &[1, place]),
        }
    }
}

/// Not copied.
struct Once {
    byte: u8,
}

impl Record for Once {
    ghost laid = { λ o. o.byte ∷ [] };

    ghost fits = { λ o. o.byte < 256 };

    fn put(self, out: &mut [u8], at: usize) -> usize {
        let Once { byte } = self;
        put_bytes(out, at, &[byte])
    }
}

#[test]
fn records_of_24_bytes_are_put(rt: HostRuntime) {
    let table = [
        Wide {
            bytes: [
                1, 2, 3, 4, 5, 6, 7, 8, 9, 10, 11, 12, 13, 14, 15, 16, 17, 18, 19, 20, 21, 22, 23,
                24,
            ],
        },
        Wide {
            bytes: [
                51, 52, 53, 54, 55, 56, 57, 58, 59, 60, 61, 62, 63, 64, 65, 66, 67, 68, 69, 70, 71,
                72, 73, 74,
            ],
        },
    ];
    let mut out = [255u8; 50];
    let end = put_table(&table, &mut out, 1);
    assert_eq!(rt; end, 49);
    let wanted = [
        255, 1, 2, 3, 4, 5, 6, 7, 8, 9, 10, 11, 12, 13, 14, 15, 16, 17, 18, 19, 20, 21, 22, 23, 24,
        51, 52, 53, 54, 55, 56, 57, 58, 59, 60, 61, 62, 63, 64, 65, 66, 67, 68, 69, 70, 71, 72, 73,
        74, 255,
    ];
    assert_eq!(rt; out.as_slice(), wanted.as_slice());
}

#[test]
fn records_of_different_lengths_are_put(rt: HostRuntime) {
    let table = [Mark::Nothing, Mark::At(7), Mark::Nothing];
    let mut out = [255u8; 6];
    let end = put_table(&table, &mut out, 1);
    assert_eq!(rt; end, 5);
    let wanted = [255, 0, 1, 7, 0, 255];
    assert_eq!(rt; out.as_slice(), wanted.as_slice());
}

#[test]
fn a_record_that_is_not_copied_is_put(rt: HostRuntime) {
    let mut out = [255u8; 3];
    let end = Once { byte: 7 }.put(&mut out, 1);
    assert_eq!(rt; end, 2);
    let wanted = [255, 7, 255];
    assert_eq!(rt; out.as_slice(), wanted.as_slice());
}
