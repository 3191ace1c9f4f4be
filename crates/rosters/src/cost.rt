//! What a sector costs in virtual time.

ghost use Rattle.std.specs.Prelude.{◌≡◌, ◌*◌, ◌<◌, false, MatchOption};
ghost use Rattle.rosters.specs.Applications.{between};
ghost use Rattle.rosters.specs.Stamps.{cost_of, cost_answer};

use crate::ranges::is_weight;

/// 2,520 × T ÷ weight, for an application of that weight in a roster of total weight T. Each of the
/// weights 1 to 10 divides 2,520, so the cost is whole. None for another weight.
pub fn cost_of_sector(total_weight: u32, weight: u8) -> Option<u64>
    ensures answer { result ≡ cost_answer total_weight weight }
    ensures whole { MatchOption result (between 1 10 weight ≡ false) (λ cost. cost * weight ≡ 2520 * total_weight) }
{
    is_weight(weight).then(|| share_of_total(total_weight, weight))
}

pub(crate) fn share_of_total(total_weight: u32, weight: u8) -> u64
    requires { 0 < weight }
    ensures { result ≡ cost_of total_weight weight }
{
    2520 * u64::from(total_weight) / u64::from(weight)
}
