//! Sealing: a roster becomes a scheduler, and can take no more applications.

ghost use Rattle.std.specs.Prelude.{◌≡◌};
ghost use Rattle.histories.specs.Promises.{Promises};
ghost use Rattle.machine.specs.Machine.{beginning};
ghost use Rattle.rosters.specs.Rosters.{line_up};
ghost use Rattle.scheduler.specs.Sealing.{Waiting, with_first};
ghost use Rattle.scheduler.specs.View.{machine};
ghost use Rattle.stamps.specs.View.{table};

use crate::desk::Desk;
use crate::scheduler::Scheduler;
use pools::pool::Pool;
use pools::rule::BudgetRule;
use rosters::roster::Roster;
use stamps::table::StampTable;

/// A scheduler for the roster's applications, with an empty pool. It uses the roster up, and cannot be
/// refused. Its contract has the promises: whatever is called from here on, they hold of the history.
pub fn seal<P: Pool, R: BudgetRule>(roster: Roster, mut pool: P, rule: R) -> Scheduler<P, R>
    ensures state { machine P.lists result ≡ beginning R.first_budget (line_up roster) }
    ensures promises { Promises P.choice R.first_budget R.next_budget (line_up roster) }
{
    let desk = Desk::new(roster.hold());
    let mut table = StampTable::new(roster);
    allot_first(&mut table, &rule);
    pool.clear();
    Scheduler {
        pool,
        rule,
        table,
        desk,
    }
}

/// Each application is given the rule's first budget.
fn allot_first<R: BudgetRule>(stamps: &mut StampTable, rule: &R)
    requires { Waiting (table stamps.old) }
    ensures { table stamps.new ≡ with_first R.first_budget (table stamps.old) }
{
    // By number: the table lends none of its rows, and its calls that change one take an application's number.
    for k in 0..stamps.len() {
        let stamp = stamps.row(k);
        let budget = rule.first(stamp.limit);
        let _ = stamps.allot(k, budget);
    }
}
