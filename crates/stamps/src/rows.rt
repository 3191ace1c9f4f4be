//! What each operation makes of an application's row.
// Functions and no methods: the row is the roster's type, and a trait round its methods would say no more.

ghost use Rattle.std.specs.Prelude.{◌≡◌, ◌+◌, ◌*◌, ◌^◌, ◌<◌, ◌≤◌, max};
ghost use Rattle.stamps.specs.Rows.{paid, queued_at, wake_stamp, serve_stamp, charge_stamp, with_budget, rest_stamp, requeue_stamp, moved};
ghost use Rattle.stamps.specs.Steps.{may_requeue};

use rosters::stamp::{Stamp, Status};

/// The virtual time that its sectors of this budget have brought the application to.
fn paid(stamp: &Stamp) -> u64
    requires { paid stamp.now < 2 ^ 64 }
    ensures { result ≡ paid stamp.now }
{
    stamp.start + u64::from(stamp.served) * stamp.cost
}

/// Queued from `at` on, for the budget it has.
fn queued_at(stamp: Stamp, at: u64) -> Stamp
    requires { at + stamp.budget * stamp.cost < 2 ^ 64 }
    ensures { result ≡ queued_at at stamp }
{
    let finish = at + u64::from(stamp.budget) * stamp.cost;
    Stamp {
        status: Status::Queued,
        start: at,
        finish,
        ..stamp
    }
}

/// An idle application comes back: no earlier than now, and no earlier than it had reached.
pub(crate) fn woken(stamp: Stamp, virtual_time: u64) -> Stamp
    requires { max virtual_time stamp.reached + stamp.budget * stamp.cost < 2 ^ 64 }
    ensures { result ≡ wake_stamp virtual_time stamp }
{
    queued_at(stamp, virtual_time.max(stamp.reached))
}

pub(crate) fn with_budget(stamp: Stamp, budget: u32) -> Stamp
    ensures { result ≡ with_budget budget stamp }
{
    Stamp { budget, ..stamp }
}

/// Its turn begins.
pub(crate) fn serving(stamp: Stamp) -> Stamp
    ensures { result ≡ serve_stamp stamp }
{
    Stamp {
        status: Status::Serving,
        served: 0,
        ..stamp
    }
}

/// Sectors of its budget are spent.
pub(crate) fn charged(stamp: Stamp, size: u16) -> Stamp
    requires { stamp.served + size < 2 ^ 32 }
    ensures { result ≡ charge_stamp size stamp }
{
    Stamp {
        served: stamp.served + u32::from(size),
        ..stamp
    }
}

/// Virtual time, once these sectors are sent.
pub(crate) fn moved(virtual_time: u64, size: u16) -> u64
    requires { virtual_time + 2520 * size < 2 ^ 64 }
    ensures { result ≡ moved virtual_time size }
{
    virtual_time + 2520 * u64::from(size)
}

/// Its turn is over, and it goes idle, with the budget for its next turn.
pub(crate) fn rested(stamp: Stamp, budget: u32) -> Stamp
    requires { paid stamp < 2 ^ 64 }
    ensures { result ≡ rest_stamp budget stamp }
{
    let reached = paid(&stamp);
    Stamp {
        status: Status::Idle,
        reached,
        budget,
        ..stamp
    }
}

/// Its turn is over, and it is queued again from where it has come to, with another budget.
pub(crate) fn requeued(stamp: Stamp, budget: u32) -> Stamp
    requires { paid stamp + budget * stamp.cost < 2 ^ 64 }
    ensures { result ≡ requeue_stamp budget stamp }
{
    let rested = rested(stamp, budget);
    queued_at(rested, rested.reached)
}

/// Whether it may be queued again with this budget, and does not finish earlier by it.
pub(crate) fn may_requeue(stamp: &Stamp, budget: u32) -> bool
    requires { (stamp.now.served ≤ 65536) × (stamp.now.limit ≤ 65536) }
    ensures { result ≡ may_requeue budget stamp.now }
{
    stamp.may_have(budget) && stamp.budget <= stamp.served + budget
}
