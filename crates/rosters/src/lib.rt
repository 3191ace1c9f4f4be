//! Rosters of applications: who shares a disk, and how much each is entitled to.

#![tactic(auto)]

pub mod application;
pub mod cost;
mod ranges;
pub mod refusal;
pub mod roster;
pub mod stamp;
