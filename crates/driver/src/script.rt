//! A whole script.

ghost use Rattle.std.specs.Prelude.{◌≡◌, ◌^◌, ◌≤◌, min, ◌++◌, length, take, drop};
ghost use Rattle.histories.specs.Promises.{Kept};
ghost use Rattle.machine.specs.Machine.{beginning};
ghost use Rattle.rosters.specs.Rosters.{line_up};
ghost use Rattle.driver.specs.Runs.{history, outcomes_of};

use crate::command::{Command, Outcome};
use crate::session::Session;
use pools::pool::Pool;
use pools::rule::BudgetRule;
use rosters::roster::Roster;
use scheduler::calls::Calls;
use scheduler::scheduler::seal::seal;

/// Seals the roster and makes the calls of the script, as many as there is room for outcomes; notes what
/// each came to, and answers how many that are. A token that is left at the end is completed. The promises
/// hold of the history that the script makes.
// Two slices of the caller's and no Vec of pairs: the call allocates nothing.
pub fn run<P: Pool + Drop, R: BudgetRule + Drop>(
    roster: Roster,
    pool: P,
    rule: R,
    commands: &[Command],
    outcomes: &mut [Outcome],
) -> usize
    ensures answer { result ≡ min (length commands.now) (length outcomes.old) }
    ensures noted { outcomes.new ≡ outcomes_of P.Pool.choice R.BudgetRule.next_budget (take result commands.now) (beginning R.BudgetRule.first_budget (line_up roster)) ++ drop result outcomes.old }
    ensures promises { Kept P.Pool.choice (line_up roster) (history P.Pool.choice R.BudgetRule.next_budget (take result commands.now) (beginning R.BudgetRule.first_budget (line_up roster))) }
{
    let count = commands.len().min(outcomes.len());
    let mut session = Session::new(seal(roster, pool, rule));
    play(&mut session, &commands[0..count], outcomes);
    session.finish();
    count
}

/// Makes the calls of the script one after another, and notes what each came to.
fn play<S: Calls>(session: &mut Session<S>, commands: &[Command], outcomes: &mut [Outcome])
    requires { length commands.now ≤ length outcomes.old }
    ensures { outcomes.new ≡ outcomes_of S.Calls.choice S.Calls.next commands.now session.old ++ drop (length commands.now) outcomes.old }
{
    // By its index: of a write through `iter_mut` a proof knows only the length.
    for (i, command) in commands.iter().enumerate() {
        outcomes[i] = session.step(*command);
    }
}
