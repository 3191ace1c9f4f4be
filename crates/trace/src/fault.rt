//! What is wrong with a trace, and where.

pub use records::fault::{Cause, Fault, Layer};
