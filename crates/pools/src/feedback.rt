//! The feedback rule: a budget follows what the application did with the last one.

ghost use Rattle.pools.specs.Budgets.{feedback_first, feedback_next};
ghost use Rattle.std.proofs.Common.{rules};

use crate::rule::{BudgetRule, Reason};

/// The least budget there is: no request is larger.
const LEAST: u32 = 256;

/// Begins small, grows fourfold where a budget was used up, and shrinks by an eighth of the limit
/// where the disk was held in vain.
#[derive(Clone, Copy)]
pub struct Feedback;

impl BudgetRule for Feedback {
    ghost first_budget = { feedback_first };

    ghost next_budget = { feedback_next };

    ghost first_fits = { Prim.search rules };

    ghost next_fits = { Prim.search rules };

    fn first(&self, limit: u32) -> u32 {
        LEAST
    }

    fn next(&self, limit: u32, last: u32, served: u32, reason: Reason) -> u32 {
        match reason {
            Reason::Exhausted => last.saturating_mul(4).min(limit),
            Reason::HoldRanOut => last.saturating_sub(limit / 8).max(LEAST),
            Reason::RanDry => last,
        }
    }
}
