//! An event.

ghost use Rattle.std.specs.Prelude.{◌≡◌, ◌+◌, ◌≤◌, length, refl};
ghost use Rattle.std.proofs.Common.{lit<, lit≤};
ghost use Rattle.fields.specs.Buffers.{put};
ghost use Rattle.records.specs.Layouts.{event_bytes, event_fits, event_record_of, event_sound};

use crate::record::{FixedRecord, Record};
use crate::tables::{Event, EventRecord};
use fields::get::get;
use fields::put::{put, put_bytes};

impl Record for EventRecord {
    ghost laid = { event_bytes };

    ghost fits = { event_fits };

    fn put(self, out: &mut [u8], at: usize) -> usize {
        let EventRecord { time, event } = self;
        let end = put(out, at, time);
        let end = put_bytes(out, end, &[event.code(), 0, 0, 0]);
        put(out, end, event.argument())
    }
}

impl FixedRecord<16> for EventRecord {
    ghost parsed = { event_record_of };

    ghost sound = { event_sound };

    fn is_sound(bytes: &[u8; 16]) -> bool {
        Event::of(bytes[8], get(bytes, 12)).is_some()
            && bytes[9] == 0
            && bytes[10] == 0
            && bytes[11] == 0
    }

    fn of(bytes: &[u8; 16]) -> EventRecord {
        EventRecord {
            time: get(bytes, 0),
            event: Event::of(bytes[8], get(bytes, 12)).unwrap_or(Event::Tick),
        }
    }

    ghost long = { λ _. refl };

    ghost width = { (lit< tt, lit≤ tt) };
}
