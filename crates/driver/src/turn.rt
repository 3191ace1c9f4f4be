//! One call of a script, on a scheduler that is lent. Whoever owns the scheduler may keep it in a session.

ghost use Rattle.std.specs.Prelude.{◌≡◌, None, Some};
ghost use Rattle.driver.specs.Runs.{Holding, acted, outcome};
ghost use Rattle.driver.specs.declared.command.Command.TheVariants as C;

use crate::command::{Answer, Command, Outcome, Refused};
use scheduler::calls::Calls;
use scheduler::token::{Dispatched, Returned, Token};

/// What a call came to, and the token that is held after it.
#[derive(Debug)]
pub struct Turn {
    pub outcome: Outcome,
    pub token: Option<Token>,
}

/// One call of the script.
pub fn step<S: Calls>(scheduler: &mut S, command: Command, mut token: Option<Token>) -> Turn
    requires { Holding (S.Calls.state scheduler.old) token }
    ensures outcome { result.outcome ≡ outcome S.Calls.choice S.Calls.next (command) (S.Calls.state scheduler.old) }
    ensures after { S.Calls.state scheduler.new ≡ acted S.Calls.choice S.Calls.next (command) (S.Calls.state scheduler.old) }
    ensures holding { Holding (S.Calls.state scheduler.new) result.token }
{
    let outcome = act(scheduler, &mut token, command);
    Turn { outcome, token }
}

/// The same for whoever keeps the token in a place of its own: a session does.
pub(crate) fn act<S: Calls>(
    scheduler: &mut S,
    held: &mut Option<Token>,
    command: Command,
) -> Outcome
    requires { Holding (S.Calls.state scheduler.old) held.old }
    ensures outcome { result ≡ outcome S.Calls.choice S.Calls.next command (S.Calls.state scheduler.old) }
    ensures after { S.Calls.state scheduler.new ≡ acted S.Calls.choice S.Calls.next command (S.Calls.state scheduler.old) }
    ensures holding { Holding (S.Calls.state scheduler.new) held.new }
{
    match command {
        Command::Arrival {
            time,
            application,
            first,
            size,
            kind,
        } => {
            let number = scheduler.arrival(time, application, first, size, kind)?;
            Ok(Answer::Accepted(number))
        }
        Command::Dispatch(time) => dispatch(scheduler, held, time),
        Command::Completion(time) => complete(scheduler, held, time),
        Command::Tick(time) => {
            scheduler.tick(time)?;
            Ok(Answer::Ticked)
        }
    }
}

/// A token that comes with the answer is held from now on.
fn dispatch<S: Calls>(scheduler: &mut S, held: &mut Option<Token>, time: u64) -> Outcome
    requires { Holding (S.Calls.state scheduler.old) held.old }
    ensures outcome { result ≡ outcome S.Calls.choice S.Calls.next (C.Dispatch time) (S.Calls.state scheduler.old) }
    ensures after { S.Calls.state scheduler.new ≡ acted S.Calls.choice S.Calls.next (C.Dispatch time) (S.Calls.state scheduler.old) }
    ensures holding { Holding (S.Calls.state scheduler.new) held.new }
{
    match scheduler.dispatch(time)? {
        Dispatched::Send(token) => {
            let request = token.request();
            keep(held, token);
            Ok(Answer::Sent(request))
        }
        Dispatched::Hold { application, until } => Ok(Answer::Held { application, until }),
        Dispatched::None => Ok(Answer::Nothing),
    }
}

/// Where no token is held, no call is made.
fn complete<S: Calls>(scheduler: &mut S, held: &mut Option<Token>, time: u64) -> Outcome
    requires { Holding (S.Calls.state scheduler.old) held.old }
    ensures outcome { result ≡ outcome S.Calls.choice S.Calls.next (C.Completion time) (S.Calls.state scheduler.old) }
    ensures after { S.Calls.state scheduler.new ≡ acted S.Calls.choice S.Calls.next (C.Completion time) (S.Calls.state scheduler.old) }
    ensures holding { Holding (S.Calls.state scheduler.new) held.new }
{
    let token = held.take().ok_or(Refused::NoToken)?;
    match scheduler.completion(time, token) {
        Ok(number) => Ok(Answer::Done(number)),
        Err(Returned { refusal, token }) => {
            keep(held, token);
            Err(refusal.into())
        }
    }
}

/// The token is held from now on, where none was.
fn keep(held: &mut Option<Token>, token: Token)
    requires { held.old ≡ None }
    ensures { held.new ≡ Some token }
{
    match held.replace(token) {
        None => {}
        Some(_) => unreachable(),
    }
}

/// A token that is left is completed, at the time that it is. Such a completion is never refused.
pub fn finish<S: Calls>(scheduler: &mut S, token: Option<Token>)
    requires { Holding (S.Calls.state scheduler.old) token }
    ensures { S.Calls.state scheduler.new ≡ acted S.Calls.choice S.Calls.next (C.Completion (S.Calls.state scheduler.old).clock) (S.Calls.state scheduler.old) }
{
    let Some(token) = token else {
        return;
    };
    let clock = scheduler.clock();
    match scheduler.completion(clock, token) {
        Ok(_) => {}
        // the clock is no time before itself, and the token is that of the request in flight
        Err(_) => unreachable(),
    }
}
