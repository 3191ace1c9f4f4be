//! Whole trace files: the contents at a file's head, what a file's bytes and its tables say of each
//! other, and the laws of both.

#![tactic(auto)]

pub mod contents;
pub mod parts;
