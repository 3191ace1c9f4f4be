//! A request.

ghost use Rattle.std.specs.Prelude.{◌≡◌, ◌+◌, ◌≤◌, length, refl};
ghost use Rattle.std.proofs.Common.{lit<, lit≤};
ghost use Rattle.fields.specs.Buffers.{put};
ghost use Rattle.records.specs.Layouts.{request_bytes, request_fits, request_of, request_sound};

use crate::kind::Kind;
use crate::record::{FixedRecord, Record};
use crate::tables::RequestRecord;
use fields::get::get;
use fields::put::{put, put_bytes};

impl Record for RequestRecord {
    ghost laid = { request_bytes };

    ghost fits = { request_fits };

    fn put(self, out: &mut [u8], at: usize) -> usize {
        let RequestRecord {
            first,
            size,
            application,
            kind,
        } = self;
        let end = put(out, at, first);
        let end = put(out, end, size);
        put_bytes(out, end, &[application, u8::from(kind), 0, 0, 0, 0])
    }
}

impl FixedRecord<16> for RequestRecord {
    ghost parsed = { request_of };

    ghost sound = { request_sound };

    fn is_sound(bytes: &[u8; 16]) -> bool {
        Kind::try_from(bytes[11]).is_ok()
            && bytes[12] == 0
            && bytes[13] == 0
            && bytes[14] == 0
            && bytes[15] == 0
    }

    fn of(bytes: &[u8; 16]) -> RequestRecord {
        RequestRecord {
            first: get(bytes, 0),
            size: get(bytes, 8),
            application: bytes[10],
            kind: Kind::try_from(bytes[11]).unwrap_or(Kind::Asynchronous),
        }
    }

    ghost long = { λ _. refl };

    ghost width = { (lit< tt, lit≤ tt) };
}
