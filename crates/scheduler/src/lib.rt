//! A sealed scheduler: the roster's applications share one disk, by budgets.

#![tactic(auto)]

pub mod calls;
mod desk;
pub mod scheduler;
pub mod token;
