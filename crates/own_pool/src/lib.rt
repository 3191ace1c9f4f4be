//! A chooser, a pool and a budget rule of one's own, each as short as may be: an example to start from.

#![tactic(auto)]

pub mod last_come;
pub mod least_budget;
pub mod tallied;
#[cfg(test)]
mod tests;
