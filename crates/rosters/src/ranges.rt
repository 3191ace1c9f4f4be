//! The ranges of a roster's numbers.
// Functions and no constants: a constant cannot be a range, since a range is made by a call.

ghost use Rattle.std.specs.Prelude.{◌≡◌};
ghost use Rattle.rosters.specs.Applications.{between};

pub(crate) fn is_weight(weight: u8) -> bool
    ensures { result ≡ between 1 10 weight }
{
    (1..=10).contains(&weight)
}

pub(crate) fn is_limit(limit: u32) -> bool
    ensures { result ≡ between 256 65536 limit }
{
    (256..=65_536).contains(&limit)
}

pub(crate) fn is_hold(ticks: u32) -> bool
    ensures { result ≡ between 1 1000000 ticks }
{
    (1..=1_000_000).contains(&ticks)
}
