//! One application's row in the stamp table.

ghost use Rattle.std.specs.Prelude.{◌≡◌, ◌+◌, ◌<◌, nat_le};
ghost use Rattle.rosters.specs.Stamps.{is_idle, is_queued, new_stamp, may_have};

use crate::application::Application;
use crate::cost::share_of_total;

/// What an application is doing.
#[derive(Clone, Copy, Debug, PartialEq, Eq)]
pub enum Status {
    /// It wants nothing.
    Idle,
    /// It waits to be picked.
    Queued,
    /// The disk is its own until its budget is spent or it has nothing left.
    Serving,
}

/// What an application is entitled to, and where it stands in virtual time.
#[derive(Clone, Copy, Debug, PartialEq, Eq)]
pub struct Stamp {
    pub weight: u8,
    pub limit: u32,
    /// The virtual time that one sector of this application takes.
    pub cost: u64,
    pub status: Status,
    pub start: u64,
    pub finish: u64,
    /// Sectors it may send before it is picked anew.
    pub budget: u32,
    /// Sectors sent of this budget.
    pub served: u32,
    /// The virtual time that it had come to when its last turn was over.
    pub reached: u64,
}

impl Stamp {
    /// The row of an application that does not exist.
    pub const NONE: Stamp = Stamp {
        weight: 0,
        limit: 0,
        cost: 0,
        status: Status::Idle,
        start: 0,
        finish: 0,
        budget: 0,
        served: 0,
        reached: 0,
    };

    /// The row of an application of which nothing is known yet, in a roster of that total weight.
    pub(crate) fn new(total_weight: u32, application: Application) -> Stamp
        requires { 0 < application.weight }
        ensures { result ≡ new_stamp total_weight application }
    {
        Stamp {
            weight: application.weight,
            limit: application.limit,
            cost: share_of_total(total_weight, application.weight),
            status: Status::Idle,
            start: 0,
            finish: 0,
            budget: application.limit,
            served: 0,
            reached: 0,
        }
    }

    pub fn is_idle(&self) -> bool
        ensures { result ≡ is_idle self.now }
    {
        self.status == Status::Idle
    }

    pub fn is_queued(&self) -> bool
        ensures { result ≡ is_queued self.now }
    {
        self.status == Status::Queued
    }

    /// Whether the application may be given this budget.
    pub fn may_have(&self, budget: u32) -> bool
        ensures { result ≡ may_have budget self.now }
    {
        (1..=self.limit).contains(&budget)
    }

    /// Whether its budget reaches for so many sectors more.
    pub fn reaches(&self, size: u16) -> bool
        ensures { result ≡ nat_le (self.now.served + size) self.now.budget }
    {
        u64::from(self.served) + u64::from(size) <= u64::from(self.budget)
    }
}
