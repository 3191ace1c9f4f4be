//! A rule that gives as little as it may.

ghost use Rattle.std.proofs.Common.{rules};

use pools::rule::{BudgetRule, Reason};

/// 256 sectors, whatever happened.
#[derive(Clone, Copy)]
pub struct LeastBudget;

impl BudgetRule for LeastBudget {
    ghost first_budget = { λ limit. 256 };

    ghost next_budget = { λ limit last served why. 256 };

    ghost first_fits = { Prim.search rules };

    ghost next_fits = { Prim.search rules };

    fn first(&self, limit: u32) -> u32 {
        256
    }

    fn next(&self, limit: u32, last: u32, served: u32, reason: Reason) -> u32 {
        256
    }
}
