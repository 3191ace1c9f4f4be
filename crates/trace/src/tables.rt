//! What the records of a trace hold.

pub use records::tables::{
    ApplicationRecord, Event, EventRecord, PoolCode, RequestRecord, RuleCode, Settings,
};

/// What a file is written from.
#[derive(Clone, Copy)]
pub struct Tables<'a> {
    pub settings: Settings,
    pub applications: &'a [ApplicationRecord],
    pub requests: &'a [RequestRecord],
    pub events: &'a [EventRecord],
}
