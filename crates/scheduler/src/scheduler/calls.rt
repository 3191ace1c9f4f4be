//! The scheduler's calls.

ghost use Rattle.std.specs.Prelude.{◌≡◌, ◌+◌, ◌^◌, ◌≤◌};
ghost use Rattle.machine.specs.Calls.{joined};
ghost use Rattle.scheduler.specs.Answers.{said};
ghost use Rattle.scheduler.specs.View.{machine, means};

use crate::calls::Calls;
use crate::scheduler::Scheduler;
use crate::token::{Dispatched, Returned, Token};
use machine::event::Event;
use machine::refusal::Refusal;
use pools::pool::Pool;
use pools::request::{Kind, Request};
use pools::rule::BudgetRule;

impl<P: Pool, R: BudgetRule> Calls for Scheduler<P, R> {
    ghost state = { λ s. machine P.lists s };

    ghost choice = { P.choice };

    ghost next = { R.next_budget };

    // With the bound too, which the machine alone does not say.
    fn clock(&self) -> u64
        ensures answer { result ≡ (machine P.lists self.now).clock }
        ensures early { result ≤ 2 ^ 40 }
    {
        self.desk.clock
    }

    fn arrival(
        &mut self,
        time: u64,
        application: u8,
        first: u64,
        size: u16,
        kind: Kind,
    ) -> Result<u64, Refusal> {
        let request = Request {
            number: self.desk.count + 1,
            application,
            first,
            size,
            kind,
        };
        self.judge_arrival(time, request)?;
        self.begin(time);
        self.join(request);
        let _ = self.react(application, Event::Arrival);
        Ok(request.number)
    }

    fn dispatch(&mut self, time: u64) -> Result<Dispatched<Token>, Refusal> {
        self.judge_dispatch(time)?;
        self.begin(time);
        let k = self.subject();
        Ok(handed_out(self.react(k, Event::Dispatch)))
    }

    fn completion(&mut self, time: u64, token: Token) -> Result<u64, Returned> {
        if let Err(refusal) = self.judge_completion(time, &token) {
            return Err(Returned { refusal, token });
        }
        let Token { request } = token;
        self.begin(time);
        self.desk.flight = None;
        let k = self.subject();
        let _ = self.react(k, Event::Completion(request.kind));
        Ok(request.number)
    }

    fn tick(&mut self, time: u64) -> Result<(), Refusal> {
        self.judge_tick(time)?;
        self.begin(time);
        let k = self.subject();
        let _ = self.react(k, Event::Tick);
        Ok(())
    }
}

impl<P: Pool, R: BudgetRule> Scheduler<P, R> {
    /// An accepted request waits.
    fn join(&mut self, request: Request)
        requires size { 1 ≤ request.size }
        requires room { self.old.desk.total + request.size ≤ 2 ^ 40 }
        ensures { machine P.lists self.new ≡ joined request (machine P.lists self.old) }
    {
        let _ = self.pool.put(request);
        self.desk.total += u64::from(request.size);
        self.desk.count += 1;
    }
}

/// A token is made for the request that is sent.
// A private function and no `From`, by which a caller could make a token of any request.
fn handed_out(reply: Dispatched<Request>) -> Dispatched<Token>
    ensures { said result ≡ means reply }
{
    match reply {
        Dispatched::Send(request) => Dispatched::Send(Token { request }),
        Dispatched::Hold { application, until } => Dispatched::Hold { application, until },
        Dispatched::None => Dispatched::None,
    }
}
