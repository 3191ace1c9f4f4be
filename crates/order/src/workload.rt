//! What the program was told.

ghost use Rattle.std.specs.Prelude.{◌≡◌, ◌≤◌, ◌↔◌, IsErrOf, is_ok, vec_len};
ghost use Rattle.order.specs.Workloads.{joined};

use crate::fault::Fault;
use crate::line::Line;
use pools::request::{Kind, Request};
use pools::rule::Reason;
use std::alloc::Global;

/// Where the head stands, which requests wait, and how an application's turns ended.
#[derive(Drop)]
pub(crate) struct Workload {
    pub(crate) head: u64,
    pub(crate) requests: Vec<Request>,
    pub(crate) limit: Option<u32>,
    pub(crate) reasons: Vec<Reason>,
}

impl Workload {
    pub(crate) fn new(heap: Global) -> Workload {
        Workload {
            head: 0,
            requests: Vec::new(heap),
            limit: None,
            reasons: Vec::new(heap),
        }
    }

    /// Notes what a line said.
    pub(crate) fn add(&mut self, line: Line) -> Result<(), Fault> {
        match line {
            Line::Head(sector) => self.head = sector,
            Line::Request { first, size } => self.add_request(first, size)?,
            Line::Rule(limit) => self.limit = Some(limit),
            Line::Ended(reason) => self.reasons.push(reason)?,
        }
        Ok(())
    }

    /// The request waits behind those before it, if there is room.
    fn add_request(&mut self, first: u64, size: u16) -> Result<(), Fault>
        ensures no_room { IsErrOf result Fault.NoRoom ↔ (16 ≤ vec_len self.old.requests) }
        ensures after { self.new.requests.items ≡ joined (is_ok result) first size self.old.requests.items }
        ensures others { self.new ≡ record self.old { requests = self.new.requests } }
    {
        // As many as wait in a pool for one application, which `pools` has no constant for.
        let waiting = self.requests.len();
        if waiting >= 16 {
            return Err(Fault::NoRoom);
        }
        self.requests.push(Request {
            number: waiting as u64 + 1,
            application: 0,
            first,
            size,
            kind: Kind::Asynchronous,
        })?;
        Ok(())
    }
}
