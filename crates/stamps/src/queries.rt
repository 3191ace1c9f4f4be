//! The two questions of a pick, put to the stamp table by the search of `least`.

ghost use Rattle.rosters.specs.Stamps.{is_queued};
ghost use Rattle.stamps.specs.Steps.{eligible, start_before, finish_before};
ghost use Rattle.std.proofs.Common.{rules};

use least::Query;
use rosters::stamp::Stamp;

/// Of the queued the one that starts first.
#[derive(Drop)]
pub(crate) struct ByStart;

impl Query for ByStart {
    type Item = Stamp;

    ghost eligible = { λ _ s. is_queued s };

    ghost before = { λ _ x y. start_before x y };

    ghost ranks = { Prim.search rules };

    fn is_eligible(&self, item: &Stamp) -> bool {
        item.is_queued()
    }

    fn is_before(&self, item: &Stamp, other: &Stamp) -> bool {
        item.start < other.start
    }
}

/// Of the queued that have started by a virtual time the one that finishes first.
#[derive(Drop)]
pub(crate) struct ByFinish {
    pub(crate) virtual_time: u64,
}

impl Query for ByFinish {
    type Item = Stamp;

    ghost eligible = { λ q s. eligible q.virtual_time s };

    ghost before = { λ _ x y. finish_before x y };

    ghost ranks = { Prim.search rules };

    fn is_eligible(&self, item: &Stamp) -> bool {
        item.is_queued() && item.start <= self.virtual_time
    }

    fn is_before(&self, item: &Stamp, other: &Stamp) -> bool {
        item.finish < other.finish
    }
}
