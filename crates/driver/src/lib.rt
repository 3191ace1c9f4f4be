//! Runs a script of calls on a scheduler, keeping the token between a dispatch and its completion.

#![tactic(auto)]

pub mod command;
pub mod script;
pub mod session;
pub mod turn;
