//! The edges of a roster's ranges, by example.

#![tactic(auto)]

ghost use Rattle.std.specs.Prelude.{◌≡◌, MatchResult};
ghost use Rattle.rosters.specs.Refusals.{number};

use rosters::refusal::Refusal;

/// 0 if the call is accepted, and else the refusal's number.
// A number and no Result: the table of the tests has these numbers.
pub fn answer<T: Drop>(outcome: Result<T, Refusal>) -> u8
    ensures { MatchResult outcome (λ _. result ≡ 0) (λ refusal. result ≡ number refusal) }
{
    outcome.err().map_or(0, u8::from)
}

#[cfg(test)]
mod tests {
    use super::*;
    use rosters::roster::Roster;
    use std::test::Fail;

    #[test]
    fn weights_and_limits(rt: HostRuntime) -> Result<(), Fail> {
        let cases: [(u8, u32, u8); 10] = [
            (0, 256, 2),
            (1, 256, 0),
            (10, 256, 0),
            (11, 256, 2),
            (1, 255, 3),
            (1, 65536, 0),
            (1, 65537, 3),
            (0, 255, 2),
            (255, 0, 2),
            (5, 4294967295, 3),
        ];
        let mut roster = Roster::new(rt.alloc())?;
        for (weight, limit, expected) in cases {
            assert_eq!(rt; answer(roster.add(weight, limit)), expected);
        }
        assert_eq!(rt; roster.len(), 4);
        Ok(())
    }

    #[test]
    fn sixteen_stand_and_no_more(rt: HostRuntime) -> Result<(), Fail> {
        let mut roster = Roster::new(rt.alloc())?;
        for _ in 0..15 {
            assert_eq!(rt; answer(roster.add(10, 65536)), 0);
        }
        assert_eq!(rt; answer(roster.add(0, 0)), 1);
        assert_eq!(rt; roster.total_weight(), 151);
        Ok(())
    }

    #[test]
    fn holds(rt: HostRuntime) -> Result<(), Fail> {
        let cases: [(u32, u8); 4] = [(0, 4), (1, 0), (1_000_000, 0), (1_000_001, 4)];
        let mut roster = Roster::new(rt.alloc())?;
        for (ticks, expected) in cases {
            assert_eq!(rt; answer(roster.set_hold(ticks)), expected);
        }
        assert_eq!(rt; roster.hold(), 1_000_000);
        Ok(())
    }
}
