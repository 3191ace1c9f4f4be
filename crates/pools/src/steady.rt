//! The steady rule.

ghost use Rattle.pools.specs.Budgets.{steady_first, steady_next};
ghost use Rattle.std.proofs.Common.{rules};

use crate::rule::{BudgetRule, Reason};

/// Always the limit.
#[derive(Clone, Copy)]
pub struct Steady;

impl BudgetRule for Steady {
    ghost first_budget = { steady_first };

    ghost next_budget = { steady_next };

    ghost first_fits = { Prim.search rules };

    ghost next_fits = { Prim.search rules };

    fn first(&self, limit: u32) -> u32 {
        limit
    }

    fn next(&self, limit: u32, last: u32, served: u32, reason: Reason) -> u32 {
        self.first(limit)
    }
}
