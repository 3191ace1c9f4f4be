//! The lines of a listing, put into a buffer.

#![tactic(auto)]

pub mod lines;
mod numbers;
