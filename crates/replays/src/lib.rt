//! Traces, replayed through a scheduler.

#![tactic(auto)]

pub mod replay;
pub mod unlisted;
