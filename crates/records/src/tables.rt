//! What the records of a trace hold.

use crate::kind::Kind;

/// The budget rule that a trace asks for.
#[derive(Clone, Copy, Debug, PartialEq, Eq)]
pub enum RuleCode {
    Steady,
    Feedback,
}

/// The request pool that a trace asks for.
#[derive(Clone, Copy, Debug, PartialEq, Eq)]
pub enum PoolCode {
    FirstCome,
    CLook,
}

/// How the scheduler is set up. The hold is counted in ticks.
#[derive(Clone, Copy, Debug, PartialEq, Eq)]
pub struct Settings {
    pub hold: u32,
    pub rule: RuleCode,
    pub pool: PoolCode,
}

/// One application. The first record is of application 1.
#[derive(Clone, Copy, Debug, PartialEq, Eq)]
pub struct ApplicationRecord {
    pub weight: u8,
    pub limit: u32,
}

/// A request that events may name.
#[derive(Clone, Copy, Debug, PartialEq, Eq)]
pub struct RequestRecord {
    pub first: u64,
    pub size: u16,
    pub application: u8,
    pub kind: Kind,
}

/// What happens at a time. An arrival names a request by its place among the request records, from 0.
#[derive(Clone, Copy, Debug, PartialEq, Eq)]
pub enum Event {
    Arrival(u32),
    Dispatch,
    Completion,
    Tick,
}

/// An event, and when it is.
#[derive(Clone, Copy, Debug, PartialEq, Eq)]
pub struct EventRecord {
    pub time: u64,
    pub event: Event,
}
