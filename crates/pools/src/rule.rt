//! What a budget rule is.

ghost use Rattle.std.specs.Prelude.{◌≡◌, ℕ, ◌≤◌};
ghost use Rattle.pools.specs.Fits.{Fits};
ghost use Rattle.pools.specs.declared.rule.Reason.{Reason};

/// Why an application's turn at the disk ended.
#[derive(Clone, Copy, Debug, PartialEq, Eq)]
pub enum Reason {
    /// Its next request did not fit what was left of its budget.
    Exhausted,
    /// The disk was held for it, and nothing came in time.
    HoldRanOut,
    /// It had nothing more to send.
    RanDry,
}

/// How large a budget an application is given, in sectors: the first, and after each turn the next.
/// Equal questions get equal answers. Limits are 256 to 65,536; for others a rule answers as it likes.
pub trait BudgetRule {
    // the first budget, by the limit
    ghost first_budget: { ℕ → ℕ };

    // the next one, by the limit, the budget that is over, how much of it was served, and why it ended
    ghost next_budget: { ℕ → ℕ → ℕ → Reason → ℕ };

    fn first(&self, limit: u32) -> u32
        ensures { result ≡ first_budget limit };

    fn next(&self, limit: u32, last: u32, served: u32, reason: Reason) -> u32
        ensures { result ≡ next_budget limit last served reason };

    ghost first_fits: { (limit : ℕ) → 256 ≤ limit → limit ≤ 65536 → Fits limit (first_budget limit) };

    ghost next_fits: { (limit last served : ℕ) (why : Reason) → 256 ≤ limit → limit ≤ 65536 → Fits limit last → Fits limit (next_budget limit last served why) };
}
