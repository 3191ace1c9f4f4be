//! A scheduler, and the token of the request that it has in flight: the calls of a script, one by one.

ghost use Rattle.std.specs.Prelude.{◌≡◌};
ghost use Rattle.driver.specs.Runs.{Holding, acted, none_held, outcome};
ghost use Rattle.driver.specs.declared.command.Command.TheVariants as C;

use crate::command::{Command, Outcome};
use crate::turn::{act, finish};
use scheduler::calls::Calls;
use scheduler::token::Token;
use std::marker::Model;

/// A scheduler and the token that is held. Contracts see the scheduler's machine. The token is that of
/// the request in flight, so a completion with it at the clock's own time is never refused.
pub struct Session<S: Calls> {
    scheduler: S,
    token: Option<Token>,
}

impl<S: Calls> Model for Session<S> {
    ghost use Rattle.machine.specs.Machine.{Machine};
    ghost use Rattle.driver.specs.Runs.{Holding};

    ghost Value = { Machine };

    ghost view = { λ s. S.Calls.state s.scheduler };

    ghost invariant = { λ s. Holding (S.Calls.state s.scheduler) s.token };
}

impl<S: Calls> Session<S> {
    /// No token is held yet.
    pub fn new(scheduler: S) -> Self
        requires { Holding (S.Calls.state scheduler) none_held }
        ensures { result ≡ S.Calls.state scheduler }
    {
        Session::resume(scheduler, None)
    }

    /// For whoever holds a scheduler, and the token of its request in flight if there is one.
    pub fn resume(scheduler: S, token: Option<Token>) -> Self
        requires { Holding (S.Calls.state scheduler) token }
        ensures { result ≡ S.Calls.state scheduler }
    {
        Session { scheduler, token }
    }

    /// Gives back what is held: the scheduler, and the token of its request in flight.
    pub fn into_parts(self) -> (S, Option<Token>)
        ensures state { S.Calls.state result.0 ≡ self }
        ensures holding { Holding self result.1 }
    {
        let Session { scheduler, token } = self;
        (scheduler, token)
    }

    /// One call of the script.
    pub fn step(&mut self, command: Command) -> Outcome
        ensures outcome { result ≡ outcome S.Calls.choice S.Calls.next command self.old }
        ensures after { self.new ≡ acted S.Calls.choice S.Calls.next command self.old }
    {
        act(&mut self.scheduler, &mut self.token, command)
    }

    /// A token that is left is completed, at the time that it is. Such a completion is never refused.
    pub fn finish(self) -> S
        ensures { S.Calls.state result ≡ acted S.Calls.choice S.Calls.next (C.Completion self.clock) self }
    {
        let Session {
            mut scheduler,
            token,
        } = self;
        finish(&mut scheduler, token);
        scheduler
    }
}
