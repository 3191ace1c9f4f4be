//! A trace over the caller's bytes.

ghost use Rattle.std.specs.Prelude.{◌≡◌, true, is_ok, map};
ghost use Rattle.records.specs.Layouts.{application_of, settings_of};
ghost use Rattle.files.specs.Reading.{judge_records, judge_roster, pieces};
ghost use Rattle.trace.specs.Split.{joined};

use split::Split;

mod access;
mod reading;
mod split;

/// A file that was read, as parts of the caller's bytes. Its records are looked at where they stand.
// No impl Model: contracts speak of its parts and of its tables, and a model has one value.
#[derive(Drop)]
pub struct Trace<'a> {
    split: Split<'a>,
    pub ghost records_judged: { is_ok (judge_records (joined split.settings split.applications split.requests split.events)) ≡ true },
    pub ghost roster_judged: { is_ok (judge_roster (settings_of split.settings.now) (map application_of (pieces 8 split.applications.bytes.now))) ≡ true },
}
