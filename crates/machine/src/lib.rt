//! What a scheduler is held to: the definitions in `specs/`, and the two small types that both they and
//! the code speak of.

#![tactic(auto)]

pub mod event;
pub mod refusal;
