//! The operations of the stamp table. One that is out of place changes nothing, and answers so.
// A bool and no Result: it is the very test that the contract names, and callers have shown it before they call.

ghost use Rattle.std.specs.Prelude.{◌≡◌, ◌<◌, false, length, IfSome, None, MatchOption};
ghost use Rattle.std.specs.List.{slice_get};
ghost use Rattle.rosters.specs.Rosters.{line_up};
ghost use Rattle.stamps.specs.Steps.{initial, can_allot, allotted, can_wake, woken, pick_time, finishing, pick_answer, picked, can_send, charged, can_requeue, requeued, can_rest, rested};
ghost use Rattle.stamps.specs.Known.{Current, Finishing, Resting};
ghost use Rattle.stamps.specs.Tables.{row};
ghost use Rattle.stamps.specs.View.{table};

use crate::queries::{ByFinish, ByStart};
use crate::rows::{charged, may_requeue, moved, requeued, rested, serving, with_budget, woken};
use crate::table::StampTable;
use least::first_least;
use rosters::roster::Roster;
use rosters::stamp::Stamp;

/// The sectors for which 64 bits of virtual time are known to suffice.
const MOST_SECTORS: u64 = 1 << 40;

impl StampTable {
    /// The table of a roster, which is used up: all idle, each budget at its limit.
    pub fn new(roster: Roster) -> StampTable
        ensures { table result ≡ initial (line_up roster) }
    {
        StampTable {
            stamps: roster.into_stamps(),
            virtual_time: 0,
            serving: None,
            sent: 0,
        }
    }

    /// How many applications there are.
    pub fn len(&self) -> usize
        ensures { result ≡ length (table self.now).stamps }
    {
        self.stamps.len()
    }

    /// The row of that application, if there is one.
    pub fn stamp(&self, application: usize) -> Option<Stamp>
        ensures { result ≡ slice_get (table self.now).stamps application }
    {
        self.stamps.get(application).copied()
    }

    /// The row of that application; a row of zeros if there is none.
    // Not left to callers as an Option: they ask for rows that are there, and would each unwrap it.
    pub fn row(&self, application: usize) -> Stamp
        ensures { result ≡ row (table self.now) application }
    {
        self.stamp(application).unwrap_or(Stamp::NONE)
    }

    /// The application that is served, if one is.
    pub fn serving(&self) -> Option<usize>
        ensures answer { result ≡ (table self.now).serving }
        ensures small { IfSome result (λ k. k < 16) }
    {
        self.serving
    }

    /// How far virtual time has come.
    pub fn virtual_time(&self) -> u64
        ensures { result ≡ (table self.now).virtual }
    {
        self.virtual_time
    }

    /// An idle application is given a budget.
    pub fn allot(&mut self, application: usize, budget: u32) -> bool
        ensures answer { result ≡ can_allot application budget (table self.old) }
        ensures after { table self.new ≡ allotted application budget (table self.old) }
    {
        let Some(stamp) = self.resting(application) else {
            return false;
        };
        if !stamp.may_have(budget) {
            return false;
        }
        self.stamps[application] = with_budget(stamp, budget);
        true
    }

    /// An idle application wants the disk, and is queued.
    pub fn wake(&mut self, application: usize) -> bool
        ensures answer { result ≡ can_wake application (table self.old) }
        ensures after { table self.new ≡ woken application (table self.old) }
    {
        let Some(stamp) = self.resting(application) else {
            return false;
        };
        self.stamps[application] = woken(stamp, self.virtual_time);
        true
    }

    /// Where nobody serves, virtual time is pushed up to the least start of the queued, and of those that
    /// have started by then the one of the least finish serves. Answers which, if any is queued.
    pub fn pick(&mut self) -> Option<usize>
        ensures answer { result ≡ pick_answer (table self.old) }
        ensures small { IfSome result (λ k. k < 16) }
        ensures after { table self.new ≡ picked (table self.old) }
    {
        if self.serving.is_some() {
            return None;
        }
        let virtual_time = self.pick_time();
        let (k, stamp) = self.eligible(virtual_time)?;
        self.stamps[k] = serving(stamp);
        self.virtual_time = virtual_time;
        self.serving = Some(k);
        Some(k)
    }

    /// Sectors of the serving application are sent, if its budget reaches.
    pub fn send(&mut self, size: u16) -> bool
        ensures answer { result ≡ can_send size (table self.old) }
        ensures after { table self.new ≡ charged size (table self.old) }
    {
        let Some((k, stamp)) = self.current() else {
            return false;
        };
        let sent = self.sent + u64::from(size);
        if !stamp.reaches(size) || sent > MOST_SECTORS {
            return false;
        }
        self.stamps[k] = charged(stamp, size);
        self.virtual_time = moved(self.virtual_time, size);
        self.sent = sent;
        true
    }

    /// The serving application's turn is over, and it is queued again with another budget, by which it
    /// does not finish earlier than before.
    pub fn requeue(&mut self, budget: u32) -> bool
        ensures answer { result ≡ can_requeue budget (table self.old) }
        ensures after { table self.new ≡ requeued budget (table self.old) }
    {
        let Some((k, stamp)) = self.current() else {
            return false;
        };
        if !may_requeue(&stamp, budget) {
            return false;
        }
        self.stamps[k] = requeued(stamp, budget);
        self.serving = None;
        true
    }

    /// The serving application's turn is over, and it goes idle, with the budget for its next turn.
    pub fn rest(&mut self, budget: u32) -> bool
        ensures answer { result ≡ can_rest budget (table self.old) }
        ensures after { table self.new ≡ rested budget (table self.old) }
    {
        let Some((k, stamp)) = self.current() else {
            return false;
        };
        if !stamp.may_have(budget) {
            return false;
        }
        self.stamps[k] = rested(stamp, budget);
        self.serving = None;
        true
    }

    /// The row of that application, if it is idle.
    fn resting(&self, application: usize) -> Option<Stamp>
        ensures { MatchOption result (can_wake application (table self.now) ≡ false) (Resting (table self.now) application) }
    {
        self.stamp(application).filter(Stamp::is_idle)
    }

    /// Who is served, with its row.
    fn current(&self) -> Option<(usize, Stamp)>
        ensures { MatchOption result ((table self.now).serving ≡ None) (λ p. Current (table self.now) p.0 p.1) }
    {
        let k = self.serving?;
        Some((k, self.stamps[k]))
    }

    /// Of the queued that have started by a virtual time the one of the least finish, with its row.
    fn eligible(&self, virtual_time: u64) -> Option<(usize, Stamp)>
        ensures { MatchOption result (finishing virtual_time (table self.now) ≡ None) (λ p. Finishing (table self.now) virtual_time p.0 p.1) }
    {
        let k = first_least(&ByFinish { virtual_time }, &self.stamps)?;
        Some((k, self.stamps[k]))
    }

    /// Virtual time, pushed up to the least start of the queued.
    fn pick_time(&self) -> u64
        ensures { result ≡ pick_time (table self.now) }
    {
        let start = first_least(&ByStart, &self.stamps).map_or(0, |k| self.stamps[k].start);
        self.virtual_time.max(start)
    }
}
