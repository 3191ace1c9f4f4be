//! Pools of waiting requests, and the rules by which applications are given their budgets.

#![tactic(auto)]

pub mod c_look;
pub mod chooser;
pub mod feedback;
pub mod first_come;
mod line;
mod lines;
pub mod pool;
pub mod refusal;
pub mod request;
pub mod rule;
pub mod steady;
pub mod table;
