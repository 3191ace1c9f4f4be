//! A scheduler with a pool and a budget rule of one's own. That it keeps every promise follows from the
//! contract of the sealing call alone: there is no proof here.

#![tactic(auto)]

ghost use Rattle.histories.specs.Promises.{Promises};
ghost use Rattle.own_pool.specs.Choices.{youngest};
ghost use Rattle.rosters.specs.Rosters.{line_up};

use own_pool::last_come::LastCome;
use own_pool::least_budget::LeastBudget;
use rosters::roster::Roster;
use scheduler::scheduler::Scheduler;
use scheduler::scheduler::seal::seal;

/// The youngest request first, and 256 sectors at a time.
pub fn last_come_scheduler(roster: Roster, pool: LastCome) -> Scheduler<LastCome, LeastBudget>
    ensures { Promises youngest (λ limit. 256) (λ limit last served why. 256) (line_up roster) }
{
    seal(roster, pool, LeastBudget)
}
