//! The three layers of reading. The first fault is handed on by each.

ghost use Rattle.std.specs.Prelude.{◌≡◌, length, IfOk};
ghost use Rattle.files.specs.Contents.{end_of};
ghost use Rattle.files.specs.Reading.{parts, judge_records, judge_roster, opened, tables};
ghost use Rattle.files.specs.Writing.{Makes};
ghost use Rattle.trace.specs.View.{split_of, tables_of, answered};

use crate::fault::Fault;
use crate::parts::Body;
use crate::tables::{ApplicationRecord, RequestRecord, Settings};
use crate::trace::Trace;
use crate::trace::split::Split;
use bodies::judge::judge_all;
use bodies::judges::{Events, Members, Sound, judge_hold, judge_settings};
use fields::get::cut;
use files::contents::Contents;
use records::record::FixedRecord;

impl<'a> Trace<'a> {
    /// The trace that the bytes are, or the first fault in them.
    pub fn read(bytes: &'a [u8]) -> Result<Trace<'a>, Fault>
        ensures answer { answered result ≡ opened bytes.now }
        ensures rewritten { IfOk result (λ t. Makes (tables_of t) bytes.now) }
    {
        Trace::open(bytes)
    }

    /// The three layers.
    fn open(bytes: &'a [u8]) -> Result<Trace<'a>, Fault>
        ensures { answered result ≡ opened bytes.now }
    {
        let contents = Contents::read(bytes)?;
        let split = Split::by(contents, bytes);
        split.judge_records()?;
        split.judge_roster()?;
        Ok(Trace { split })
    }
}

impl<'a> Split<'a> {
    fn by(contents: Contents, bytes: &'a [u8]) -> Split<'a>
        requires { length bytes.now ≡ end_of contents }
        ensures { split_of result ≡ parts contents bytes.now }
    {
        let requests_at = contents.requests_at();
        let events_at = contents.events_at();
        Split {
            settings: cut(bytes, 32, 8).as_array().unwrap(),
            applications: Body::of(bytes, 40, 8 * contents.applications),
            requests: Body::of(bytes, requests_at, 16 * contents.requests),
            events: Body::of(bytes, events_at, 16 * contents.events),
        }
    }

    /// The second layer: each record by itself.
    fn judge_records(&self) -> Result<(), Fault>
        ensures { result ≡ judge_records (split_of self.now) }
    {
        judge_settings(self.settings)?;
        judge_all(
            &Sound::<ApplicationRecord>::from(40),
            self.applications.pieces::<8>(),
        )?;
        judge_all(
            &Sound::<RequestRecord>::from(self.requests.offset),
            self.requests.pieces::<16>(),
        )?;
        let events = Events {
            first: self.events.offset,
            requests: self.requests.count::<16, RequestRecord>(),
        };
        judge_all(&events, self.events.pieces::<16>())
    }

    /// The third layer: the roster that the records make.
    fn judge_roster(&self) -> Result<(), Fault>
        ensures { result ≡ judge_roster (split_of self.now).settings (tables (split_of self.now)).applications }
    {
        judge_hold(Settings::of(self.settings))?;
        judge_all(&Members, self.applications.pieces::<8>())
    }
}
