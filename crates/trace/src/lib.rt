//! Trace files: a reader over the caller's bytes, and a writer into the caller's buffer.

#![tactic(auto)]

pub mod fault;
pub mod kind;
pub mod parts;
pub mod tables;
pub mod trace;
mod writer;

pub use writer::write_trace;
