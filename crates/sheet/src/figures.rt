//! The figures that are not the roster's own.

ghost use Rattle.std.specs.Prelude.{◌≡◌, ◌+◌, ◌*◌, ◌/◌, ◌<◌};

/// A weight's share of the total, in hundredths of a percent, rounded to the nearest.
pub fn share(weight: u8, total_weight: u32) -> u64
    ensures { 0 < total_weight → result ≡ (10000 * weight + total_weight / 2) / total_weight }
{
    let total = u64::from(total_weight);
    if total == 0 {
        return 0;
    }
    (10000 * u64::from(weight) + total / 2) / total
}
