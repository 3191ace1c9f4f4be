//! The settings.

ghost use Rattle.std.specs.Prelude.{◌≡◌, ◌+◌, ◌≤◌, length, refl};
ghost use Rattle.std.proofs.Common.{lit<, lit≤};
ghost use Rattle.fields.specs.Buffers.{put};
ghost use Rattle.records.specs.Layouts.{settings_bytes, settings_fits, settings_of, settings_sound};

use crate::record::{FixedRecord, Record};
use crate::tables::{PoolCode, RuleCode, Settings};
use fields::get::get;
use fields::put::{put, put_bytes};

impl Record for Settings {
    ghost laid = { settings_bytes };

    ghost fits = { settings_fits };

    fn put(self, out: &mut [u8], at: usize) -> usize {
        let Settings { hold, rule, pool } = self;
        let end = put(out, at, hold);
        put_bytes(out, end, &[u8::from(rule), u8::from(pool), 0, 0])
    }
}

impl FixedRecord<8> for Settings {
    ghost parsed = { settings_of };

    ghost sound = { settings_sound };

    fn is_sound(bytes: &[u8; 8]) -> bool {
        RuleCode::try_from(bytes[4]).is_ok()
            && PoolCode::try_from(bytes[5]).is_ok()
            && bytes[6] == 0
            && bytes[7] == 0
    }

    fn of(bytes: &[u8; 8]) -> Settings {
        Settings {
            hold: get(bytes, 0),
            rule: RuleCode::try_from(bytes[4]).unwrap_or(RuleCode::Steady),
            pool: PoolCode::try_from(bytes[5]).unwrap_or(PoolCode::FirstCome),
        }
    }

    ghost long = { λ _. refl };

    ghost width = { (lit< tt, lit≤ tt) };
}
