//! What the events of an accepted call do.

ghost use Rattle.std.specs.Prelude.{◌≡◌, ◌^◌, ◌≤◌};
ghost use Rattle.machine.specs.Machine.{begun, finished, next_of, picking, picking_reply, reacted, retired, sent, served_by, served_reply, subject};
ghost use Rattle.scheduler.specs.View.{Same, heard, machine, means};
ghost use Rattle.stamps.specs.Tables.{row};

use crate::scheduler::Scheduler;
use crate::token::Dispatched;
use machine::event::Event;
use pools::pool::Pool;
use pools::request::{Kind, Request};
use pools::rule::{BudgetRule, Reason};
use rosters::stamp::Status;

impl<P: Pool, R: BudgetRule> Scheduler<P, R> {
    /// The first step of an accepted call: the clock is set, and a hold that has run out ends the turn.
    pub(crate) fn begin(&mut self, time: u64)
        requires { time ≤ 2 ^ 40 }
        ensures same { Same self.old.desk self.new.desk }
        ensures after { machine P.lists self.new ≡ begun P.choice R.next_budget time (machine P.lists self.old) }
    {
        self.desk.clock = time;
        match (self.desk.until, self.table.serving()) {
            (Some(until), Some(k)) if until <= time => self.retire(k as u8, Reason::HoldRanOut),
            _ => {}
        }
    }

    /// The turn of application `k` is over: it gets its next budget, and is queued again if anything of
    /// it waits.
    fn retire(&mut self, k: u8, why: Reason)
        ensures same { Same self.old.desk self.new.desk }
        ensures after { machine P.lists self.new ≡ retired P.choice R.next_budget why k (machine P.lists self.old) }
    {
        let stamp = self.table.row(usize::from(k));
        let budget = self.rule.next(stamp.limit, stamp.budget, stamp.served, why);
        if self.pool.count(k) > 0 {
            let _ = self.table.requeue(budget);
        } else {
            let _ = self.table.rest(budget);
        }
        self.desk.until = None;
    }

    /// The request goes to the disk.
    fn send(&mut self, k: u8, request: Request)
        ensures { machine P.lists self.new ≡ sent P.choice R.next_budget k request (machine P.lists self.old) }
    {
        let _ = self.table.send(request.size);
        let _ = self.pool.take(k, self.desk.head);
        self.desk.head = request.first.saturating_add(u64::from(request.size));
        self.desk.flight = Some(request);
    }

    /// Nobody serves: the application that is picked sends.
    fn pick(&mut self) -> Dispatched<Request>
        ensures answer { means result ≡ picking_reply P.choice R.next_budget (machine P.lists self.old) }
        ensures after { machine P.lists self.new ≡ picking P.choice R.next_budget (machine P.lists self.old) }
    {
        let Some(k) = self.table.pick() else {
            return Dispatched::None;
        };
        let Some(request) = self.pool.show(k as u8, self.desk.head) else {
            return Dispatched::None;
        };
        self.send(k as u8, request);
        Dispatched::Send(request)
    }

    /// A dispatch while `k` serves.
    fn serve(&mut self, k: u8) -> Dispatched<Request>
        ensures answer { means result ≡ served_reply P.choice R.next_budget k (next_of P.choice R.next_budget k (machine P.lists self.old)) (machine P.lists self.old) }
        ensures after { machine P.lists self.new ≡ served_by P.choice R.next_budget k (next_of P.choice R.next_budget k (machine P.lists self.old)) (machine P.lists self.old) }
    {
        let Some(request) = self.pool.show(k, self.desk.head) else {
            // The rules say 0 where no hold is set; a dispatch that comes here finds one.
            return Dispatched::Hold {
                application: k,
                until: self.desk.until.unwrap_or(0),
            };
        };
        let stamp = self.table.row(usize::from(k));
        if stamp.reaches(request.size) {
            self.send(k, request);
            return Dispatched::Send(request);
        }
        self.retire(k, Reason::Exhausted);
        self.pick()
    }

    /// A completion while `k` serves: if nothing of it waits, the disk is held for it after a synchronous
    /// request, and its turn is over after an asynchronous one.
    fn finish(&mut self, k: u8, kind: Kind)
        ensures { machine P.lists self.new ≡ finished P.choice R.next_budget k kind (machine P.lists self.old) }
    {
        if self.pool.count(k) > 0 {
            return;
        }
        match kind {
            Kind::Synchronous => {
                self.desk.until = Some(self.desk.clock + u64::from(self.desk.hold));
            }
            Kind::Asynchronous => self.retire(k, Reason::RanDry),
        }
    }

    /// What an event does to application `k`, by its status. A dispatch that finds it not serving finds
    /// nobody serving.
    pub(crate) fn react(&mut self, k: u8, event: Event) -> Dispatched<Request>
        ensures answer { means result ≡ heard P.choice R.next_budget (row (machine P.lists self.old).table k).status event k (machine P.lists self.old) }
        ensures after { machine P.lists self.new ≡ reacted P.choice R.next_budget (row (machine P.lists self.old).table k).status event k (machine P.lists self.old) }
    {
        let stamp = self.table.row(usize::from(k));
        // One match, and none of the twelve cases of status and event taken together with another or left to a
        // wildcard: they stand side by side, as the rules have them.
        match (stamp.status, event) {
            (Status::Idle, Event::Arrival) => {
                let _ = self.table.wake(usize::from(k));
                Dispatched::None
            }
            (Status::Queued, Event::Arrival) => Dispatched::None,
            (Status::Serving, Event::Arrival) => {
                self.desk.until = None;
                Dispatched::None
            }
            (Status::Idle, Event::Dispatch) => self.pick(),
            (Status::Queued, Event::Dispatch) => self.pick(),
            (Status::Serving, Event::Dispatch) => self.serve(k),
            (Status::Idle, Event::Completion(_)) => Dispatched::None,
            (Status::Queued, Event::Completion(_)) => Dispatched::None,
            (Status::Serving, Event::Completion(kind)) => {
                self.finish(k, kind);
                Dispatched::None
            }
            (Status::Idle, Event::Tick) => Dispatched::None,
            (Status::Queued, Event::Tick) => Dispatched::None,
            (Status::Serving, Event::Tick) => Dispatched::None,
        }
    }

    /// Who sees a dispatch, a completion or a tick: the application that serves, or 0 where nobody does.
    pub(crate) fn subject(&self) -> u8
        ensures { result ≡ subject (machine P.lists self.now) }
    {
        self.table.serving().map_or(0, |k| k as u8)
    }
}
