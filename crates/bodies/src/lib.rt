//! Whole bodies of records: the first fault in one, and one put into a buffer.

#![tactic(auto)]

pub mod judge;
pub mod judges;
pub mod put;
#[cfg(test)]
mod tests;
