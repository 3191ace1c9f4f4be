//! When a call is refused. Judged on the state before the call, in a fixed order.

ghost use Rattle.std.specs.Prelude.{◌≡◌};
ghost use Rattle.machine.specs.Calls.{arrival_refusal, completion_refusal, dispatch_refusal, tick_refusal};
ghost use Rattle.scheduler.specs.Answers.{answered, request_of};
ghost use Rattle.scheduler.specs.View.{machine};

use crate::scheduler::Scheduler;
use crate::token::Token;
use machine::refusal::Refusal;
use pools::pool::Pool;
use pools::request::Request;
use pools::rule::BudgetRule;

/// The largest time, the largest end of a request, and the most sectors that are accepted.
const MOST: u64 = 1 << 40;

impl<P: Pool, R: BudgetRule> Scheduler<P, R> {
    /// The request of an arrival, under the number that it gets if it is accepted.
    pub(crate) fn judge_arrival(&self, time: u64, request: Request) -> Result<(), Refusal>
        ensures { result ≡ answered (arrival_refusal time request.application request.first request.size (machine P.lists self.now)) tt }
    {
        self.judge_tick(time)?;
        if usize::from(request.application) >= self.table.len() {
            return Err(Refusal::Application);
        }
        if !(1..=256).contains(&request.size) {
            return Err(Refusal::Size);
        }
        if request.first > MOST - u64::from(request.size) {
            return Err(Refusal::Sector);
        }
        if self.pool.count(request.application) >= 16 {
            return Err(Refusal::Full);
        }
        if self.desk.total + u64::from(request.size) > MOST {
            return Err(Refusal::Total);
        }
        Ok(())
    }

    pub(crate) fn judge_dispatch(&self, time: u64) -> Result<(), Refusal>
        ensures { result ≡ answered (dispatch_refusal time (machine P.lists self.now)) tt }
    {
        self.judge_tick(time)?;
        if self.desk.flight.is_some() {
            return Err(Refusal::Busy);
        }
        Ok(())
    }

    pub(crate) fn judge_completion(&self, time: u64, token: &Token) -> Result<(), Refusal>
        ensures { result ≡ answered (completion_refusal time (request_of token.now) (machine P.lists self.now)) tt }
    {
        self.judge_tick(time)?;
        match self.desk.flight {
            Some(request) if request == token.request => Ok(()),
            _ => Err(Refusal::Token),
        }
    }

    /// A tick has nothing but its time, by which each call is judged first.
    pub(crate) fn judge_tick(&self, time: u64) -> Result<(), Refusal>
        ensures { result ≡ answered (tick_refusal time (machine P.lists self.now)) tt }
    {
        if !(self.desk.clock..=MOST).contains(&time) {
            return Err(Refusal::Time);
        }
        Ok(())
    }
}
