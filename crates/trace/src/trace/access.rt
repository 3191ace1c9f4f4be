//! What a trace hands out: its bodies as parts of the caller's bytes, and its records with their places.

ghost use Rattle.std.specs.Prelude.{◌≡◌, length};
ghost use Rattle.files.specs.Parts.{part_of, placed};
ghost use Rattle.trace.specs.View.{parts_of, tables_of};

use crate::parts::{Body, Placed};
use crate::tables::{ApplicationRecord, EventRecord, RequestRecord, Settings};
use crate::trace::Trace;
use records::record::FixedRecord;

impl<'a> Trace<'a> {
    pub fn settings(&self) -> Settings
        ensures { result ≡ (tables_of self.now).settings }
    {
        Settings::of(self.split.settings)
    }

    pub fn settings_body(&self) -> Body<'a>
        ensures { part_of result ≡ (parts_of self.now).settings_body }
    {
        let bytes = self.split.settings;
        Body { offset: 32, bytes }
    }

    pub fn applications(&self) -> Body<'a>
        ensures { part_of result ≡ (parts_of self.now).applications }
    {
        self.split.applications
    }

    pub fn requests(&self) -> Body<'a>
        ensures { part_of result ≡ (parts_of self.now).requests }
    {
        self.split.requests
    }

    pub fn events(&self) -> Body<'a>
        ensures { part_of result ≡ (parts_of self.now).events }
    {
        self.split.events
    }

    // A name for each kind, of one line: a caller need not say a width, and cannot take the wrong one.

    /// How many application records there are: the applications are numbered up to that.
    pub fn application_count(&self) -> usize
        ensures { result ≡ length (tables_of self.now).applications }
    {
        self.split.applications.count::<8, ApplicationRecord>()
    }

    pub fn request_count(&self) -> usize
        ensures { result ≡ length (tables_of self.now).requests }
    {
        self.split.requests.count::<16, RequestRecord>()
    }

    pub fn event_count(&self) -> usize
        ensures { result ≡ length (tables_of self.now).events }
    {
        self.split.events.count::<16, EventRecord>()
    }

    /// The application record at that index, which is of the application of the next number.
    pub fn application(&self, index: usize) -> Option<Placed<ApplicationRecord>>
        ensures { result ≡ placed (parts_of self.now).applications.offset 8 (tables_of self.now).applications index }
    {
        self.split.applications.record(index)
    }

    pub fn request(&self, index: usize) -> Option<Placed<RequestRecord>>
        ensures { result ≡ placed (parts_of self.now).requests.offset 16 (tables_of self.now).requests index }
    {
        self.split.requests.record(index)
    }

    pub fn event(&self, index: usize) -> Option<Placed<EventRecord>>
        ensures { result ≡ placed (parts_of self.now).events.offset 16 (tables_of self.now).events index }
    {
        self.split.events.record(index)
    }
}
