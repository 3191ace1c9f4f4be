//! The records of a trace: what each holds, how it is laid out in bytes, and what can be wrong with it.

#![tactic(auto)]

pub mod codes;
pub mod fault;
pub mod kind;
pub mod layouts;
pub mod record;
pub mod tables;
mod words;
