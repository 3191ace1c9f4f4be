//! What a scheduler keeps besides its stamp table, its pool and its rule.

ghost use Rattle.std.specs.Prelude.{◌^◌, ◌≤◌};

use pools::request::Request;

/// The clock, the head, the request in flight and the hold, with what was accepted so far. No more
/// sectors are accepted than 2^40, and so no more requests.
#[derive(Drop)]
pub(crate) struct Desk {
    pub(crate) clock: u64,
    pub(crate) head: u64,
    pub(crate) flight: Option<Request>,
    pub(crate) until: Option<u64>,
    pub(crate) count: u64,
    pub(crate) total: u64,
    pub(crate) hold: u32,
    ghost early: { clock ≤ 2 ^ 40 },
    ghost few: { count ≤ total },
    ghost modest: { total ≤ 2 ^ 40 },
}

impl Desk {
    ghost use Rattle.scheduler.specs.Opening.{Opened};

    /// Nothing has happened yet.
    pub(crate) fn new(hold: u32) -> Desk
        ensures { Opened hold result }
    {
        Desk {
            clock: 0,
            head: 0,
            flight: None,
            until: None,
            count: 0,
            total: 0,
            hold,
        }
    }
}
