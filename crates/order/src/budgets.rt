//! The budgets that a rule gives.

ghost use Rattle.std.specs.Prelude.{◌≡◌, ◌∷◌, IfOk};
ghost use Rattle.order.specs.Budgets.{budgets_from};

use pools::rule::{BudgetRule, Reason};
use std::alloc::{AllocError, Global};

/// The first budget, and the one after each turn, as though every turn had used its budget whole.
pub(crate) fn budgets<R: BudgetRule>(
    heap: Global,
    rule: &R,
    limit: u32,
    reasons: &[Reason],
) -> Result<Vec<u32>, AllocError>
    ensures { IfOk result (λ bs. bs.items ≡ budgets_from (R.BudgetRule.next_budget limit) (R.BudgetRule.first_budget limit) reasons.now) }
{
    let mut all = Vec::new(heap);
    let mut last = rule.first(limit);
    for reason in reasons {
        all.push(last)?;
        last = rule.next(limit, last, last, *reason);
    }
    all.push(last)?;
    Ok(all)
}
