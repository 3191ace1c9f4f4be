//! What a file without a fault asks for: its roster, and a command for each event.

ghost use Rattle.std.specs.Prelude.{◌≡◌, ◌≤◌, map, length, IfOk};
ghost use Rattle.std.specs.List.{slice_get};
ghost use Rattle.records.specs.Layouts.{application_of, event_record_of};
ghost use Rattle.files.specs.Reading.{read};
ghost use Rattle.rosters.specs.Rosters.{line_up};
ghost use Rattle.replays.specs.Asked.{arrival, command, roster};

use driver::command::Command;
use records::record::FixedRecord;
use rosters::roster::Roster;
use std::alloc::{AllocError, Global};
use std::marker::Model;
use trace::fault::Fault;
use trace::parts::Placed;
use trace::tables::{ApplicationRecord, Event, EventRecord, RequestRecord, Settings};
use trace::trace::Trace;

/// The trace of a file without a fault. Contracts see its tables.
#[derive(Drop)]
pub(crate) struct Workload<'a> {
    trace: Trace<'a>,
}

impl<'a> Model for Workload<'a> {
    ghost use Rattle.files.specs.Tables.{Tables};
    ghost use Rattle.trace.specs.View.{tables_of};
    ghost use Rattle.replays.specs.Judged.{Judged};

    ghost Value = { Tables };

    ghost view = { λ w. tables_of w.trace };

    ghost invariant = { λ w. Judged (tables_of w.trace) };
}

impl<'a> Workload<'a> {
    /// The workload that the bytes hold, or the first fault in them.
    pub(crate) fn read(bytes: &'a [u8]) -> Result<Workload<'a>, Fault>
        ensures { result ≡ read bytes.now }
    {
        let trace = Trace::read(bytes)?;
        Ok(Workload { trace })
    }

    pub(crate) fn settings(&self) -> Settings
        ensures { result ≡ self.now.settings }
    {
        self.trace.settings()
    }

    /// A roster of the file's applications.
    pub(crate) fn roster(&self, heap: Global) -> Result<Roster, AllocError>
        ensures { IfOk result (λ x. line_up x ≡ roster self.now) }
    {
        let mut roster = Roster::new(heap)?;
        let _ = roster.set_hold(self.trace.settings().hold);
        for bytes in self.applications() {
            let ApplicationRecord { weight, limit } = ApplicationRecord::of(bytes);
            let _ = roster.add(weight, limit);
        }
        Ok(roster)
    }

    /// The bytes of each application record.
    pub(crate) fn applications(&self) -> &'a [[u8; 8]]
        ensures applications { map application_of result.now ≡ self.now.applications }
        ensures few { length result.now ≤ 15 }
    {
        self.trace.applications().pieces()
    }

    /// The bytes of each event.
    pub(crate) fn events(&self) -> &'a [[u8; 16]]
        ensures events { map event_record_of result.now ≡ self.now.events }
        ensures few { length result.now ≤ 960 }
    {
        self.trace.events().pieces()
    }

    /// What an event asks for.
    pub(crate) fn command(&self, event: &[u8; 16]) -> Command
        ensures { result ≡ command self.now.requests (event_record_of event.now) }
    {
        let EventRecord { time, event } = EventRecord::of(event);
        match event {
            Event::Arrival(request) => self.arrival(time, request as usize),
            Event::Dispatch => Command::Dispatch(time),
            Event::Completion => Command::Completion(time),
            Event::Tick => Command::Tick(time),
        }
    }

    fn arrival(&self, time: u64, request: usize) -> Command
        ensures { result ≡ arrival time (slice_get self.now.requests request) }
    {
        let Some(Placed { value, .. }) = self.trace.request(request) else {
            return Command::Tick(time);
        };
        let RequestRecord {
            first,
            size,
            application,
            kind,
        } = value;
        Command::Arrival {
            time,
            application,
            first,
            size,
            kind,
        }
    }
}
