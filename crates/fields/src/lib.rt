//! Unsigned numbers in bytes, lowest byte first: read from a slice, and put into one.

#![tactic(auto)]

pub mod get;
pub mod number;
pub mod put;
