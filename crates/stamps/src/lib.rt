//! The virtual times by which a budget-fair scheduler serves the applications of a roster.

#![tactic(auto)]

mod queries;
mod rows;
pub mod table;
