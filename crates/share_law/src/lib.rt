//! The share law: however the operations of the stamp table follow each other, an application that is
//! never idle falls behind its share by no more than a number of sectors that its roster fixes.

#![tactic(auto)]

ghost use Rattle.std.specs.Prelude.{◌≡◌, MatchOption};
ghost use Rattle.rosters.specs.Rosters.{line_up};
ghost use Rattle.share_law.specs.Shares.{Law, Unlisted};
ghost use Rattle.share_law.specs.Bounds.{allowance, rounded_up, bound_answer, Bound, InRange};
ghost use Rattle.share_law.specs.Example.{Met};

use rosters::roster::Roster;

/// By how many sectors an application can fall behind its share of all that is sent while it is never
/// idle; none for one that is not on the roster. The law that makes it so is in the contract, whole.
pub fn bound_in_sectors(roster: &Roster, application: usize) -> Option<u64>
    ensures answer { result ≡ bound_answer (line_up roster.now) application }
    ensures bound { MatchOption result (Unlisted (line_up roster.now) application) (Bound (line_up roster.now) application) }
    ensures law { Law (line_up roster.now) }
    ensures example { Met }
{
    let entry = roster.application(application)?;
    Some(rounded_bound(
        u64::from(roster.total_weight()),
        u64::from(roster.largest_limit()),
        u64::from(entry.weight),
        u64::from(entry.limit),
    ))
}

/// The bound by the figures alone: the share bound divided by the total weight, rounded up.
fn rounded_bound(total_weight: u64, largest_limit: u64, weight: u64, limit: u64) -> u64
    requires { InRange total_weight largest_limit weight limit }
    ensures { result ≡ rounded_up (allowance total_weight largest_limit weight limit) total_weight }
{
    let allowance = (2 * total_weight - weight) * limit + weight * largest_limit;
    allowance.div_ceil(total_weight)
}
