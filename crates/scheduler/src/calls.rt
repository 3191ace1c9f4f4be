//! The calls of a scheduler, by what they answer and leave. Layers over a scheduler have the same calls.

ghost use Rattle.std.specs.Prelude.{◌≡◌, ◌+◌};
ghost use Rattle.machine.specs.Calls.{arrival_refusal, arrived, completed, completion_refusal, dispatch_refusal, dispatch_reply, dispatched, tick_refusal, ticked};
ghost use Rattle.machine.specs.Machine.{Machine, Rule};
ghost use Rattle.pools.specs.Lines.{Choice};
ghost use Rattle.scheduler.specs.Answers.{answered, completion_answer, request_of, told};

use crate::token::{Dispatched, Returned, Token};
use machine::refusal::Refusal;
use pools::request::Kind;

/// What can be asked of a scheduler, or of whatever stands over one. Each call that is refused changes nothing.
pub trait Calls {
    // the machine that the scheduler stands for
    ghost state: { Self → Machine };

    // its pool's choice, and its rule's next budget
    ghost choice: { Choice };

    ghost next: { Rule };

    /// The time of the last accepted call.
    fn clock(&self) -> u64
        ensures { result ≡ (state self.now).clock };

    /// A request joins its application's line. Answers its number.
    // Its four parts and no struct of them: a caller would name each all the same, and a refusal speaks of one at a time.
    fn arrival(
        &mut self,
        time: u64,
        application: u8,
        first: u64,
        size: u16,
        kind: Kind,
    ) -> Result<u64, Refusal>
        ensures answer { result ≡ answered (arrival_refusal time application first size (state self.old)) ((state self.old).count + 1) }
        ensures after { state self.new ≡ arrived choice next time application first size kind (state self.old) };

    /// Which request goes to the disk now.
    fn dispatch(&mut self, time: u64) -> Result<Dispatched<Token>, Refusal>
        ensures answer { told result ≡ answered (dispatch_refusal time (state self.old)) (dispatch_reply choice next time (state self.old)) }
        ensures after { state self.new ≡ dispatched choice next time (state self.old) };

    /// The request of this token is done. Answers its number.
    fn completion(&mut self, time: u64, token: Token) -> Result<u64, Returned>
        ensures answer { result ≡ completion_answer (completion_refusal time (request_of token) (state self.old)) token }
        ensures after { state self.new ≡ completed choice next time (request_of token) (state self.old) };

    /// Time passes.
    fn tick(&mut self, time: u64) -> Result<(), Refusal>
        ensures answer { result ≡ answered (tick_refusal time (state self.old)) tt }
        ensures after { state self.new ≡ ticked choice next time (state self.old) };
}
