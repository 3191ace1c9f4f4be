//! C-LOOK: the head sweeps upward over the waiting requests, and then starts again at the lowest.

ghost use Rattle.std.specs.Prelude.{◌≡◌, ◌<◌, length};
ghost use Rattle.pools.specs.Choices.{Sweep, ahead, lower, next_ahead};
ghost use Rattle.std.proofs.Common.{rules};
ghost use Rattle.pools.specs.Sweeps.{sweep_within};

use crate::chooser::Chooser;
use crate::request::Request;
use crate::table::Table;
use least::{Query, first_least};

/// Of the requests that a head at this sector has not passed the one of the lowest first sector.
#[derive(Drop)]
struct Ahead {
    head: u64,
}

impl Query for Ahead {
    type Item = Request;

    ghost eligible = { λ q x. ahead q.head x };

    ghost before = { λ _ x y. lower x y };

    ghost ranks = { Prim.search rules };

    fn is_eligible(&self, item: &Request) -> bool {
        self.head <= item.first
    }

    fn is_before(&self, item: &Request, other: &Request) -> bool {
        item.first < other.first
    }
}

/// Chooses the lowest first sector from the head onward, and the lowest of all once the head is past
/// them; where several begin at that sector, the oldest.
#[derive(Clone, Copy, Default)]
pub struct NextAhead;

impl Chooser for NextAhead {
    ghost choice = { next_ahead };

    ghost within = { λ xs head h. sweep_within xs head h };

    fn choose(&self, line: &[Request], head: u64) -> usize
        ensures place { result ≡ next_ahead line.now head }
        ensures meaning { 0 < length line.now → Sweep line.now head result }
    {
        if let Some(place) = first_least(&Ahead { head }, line) {
            return place;
        }
        // at sector 0 the head has passed none
        first_least(&Ahead { head: 0 }, line).unwrap_or(0)
    }
}

/// The pool that sweeps.
pub type CLook = Table<NextAhead>;
