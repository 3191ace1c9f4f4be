//! An application.

ghost use Rattle.std.specs.Prelude.{◌≡◌, ◌+◌, ◌≤◌, length, refl};
ghost use Rattle.std.proofs.Common.{lit<, lit≤};
ghost use Rattle.fields.specs.Buffers.{put};
ghost use Rattle.records.specs.Layouts.{application_bytes, application_fits, application_of, application_sound};

use crate::record::{FixedRecord, Record};
use crate::tables::ApplicationRecord;
use fields::get::get;
use fields::put::{put, put_bytes};

impl Record for ApplicationRecord {
    ghost laid = { application_bytes };

    ghost fits = { application_fits };

    fn put(self, out: &mut [u8], at: usize) -> usize {
        let ApplicationRecord { weight, limit } = self;
        let end = put_bytes(out, at, &[weight, 0, 0, 0]);
        put(out, end, limit)
    }
}

impl FixedRecord<8> for ApplicationRecord {
    ghost parsed = { application_of };

    ghost sound = { application_sound };

    fn is_sound(bytes: &[u8; 8]) -> bool {
        bytes[1] == 0 && bytes[2] == 0 && bytes[3] == 0
    }

    fn of(bytes: &[u8; 8]) -> ApplicationRecord {
        ApplicationRecord {
            weight: bytes[0],
            limit: get(bytes, 4),
        }
    }

    ghost long = { λ _. refl };

    ghost width = { (lit< tt, lit≤ tt) };
}
