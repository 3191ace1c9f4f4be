//! The words for what a trace holds.

ghost use Rattle.std.specs.Prelude.{Some};
ghost use Rattle.records.specs.Words.{application_text, event_record_text, event_text, pool_name, request_text, rule_name};

use crate::tables::{ApplicationRecord, Event, EventRecord, PoolCode, RequestRecord, RuleCode};
use std::fmt;

impl fmt::Display for RuleCode {
    ghost output = { λ rule. Some (rule_name rule) };

    fn fmt<W: fmt::Write>(&self, f: &mut fmt::Formatter<W>) -> fmt::Result {
        f.write_str(match self {
            RuleCode::Steady => "steady",
            RuleCode::Feedback => "feedback",
        })
    }
}

impl fmt::Display for PoolCode {
    ghost output = { λ pool. Some (pool_name pool) };

    fn fmt<W: fmt::Write>(&self, f: &mut fmt::Formatter<W>) -> fmt::Result {
        f.write_str(match self {
            PoolCode::FirstCome => "first-come",
            PoolCode::CLook => "C-LOOK",
        })
    }
}

impl fmt::Display for Event {
    ghost output = { λ event. Some (event_text event) };

    fn fmt<W: fmt::Write>(&self, f: &mut fmt::Formatter<W>) -> fmt::Result {
        match self {
            Event::Arrival(request) => write!(f, "arrival of request {request}"),
            Event::Dispatch => write!(f, "dispatch"),
            Event::Completion => write!(f, "completion"),
            Event::Tick => write!(f, "tick"),
        }
    }
}

impl fmt::Display for ApplicationRecord {
    ghost output = { λ application. Some (application_text application) };

    fn fmt<W: fmt::Write>(&self, f: &mut fmt::Formatter<W>) -> fmt::Result {
        write!(f, "weight {}, limit {}", self.weight, self.limit)
    }
}

impl fmt::Display for RequestRecord {
    ghost output = { λ request. Some (request_text request) };

    fn fmt<W: fmt::Write>(&self, f: &mut fmt::Formatter<W>) -> fmt::Result {
        let RequestRecord {
            first,
            size,
            application,
            kind,
        } = self;
        write!(
            f,
            "application {application}, first {first}, size {size}, {kind}"
        )
    }
}

impl fmt::Display for EventRecord {
    ghost output = { λ event. Some (event_record_text event) };

    fn fmt<W: fmt::Write>(&self, f: &mut fmt::Formatter<W>) -> fmt::Result {
        write!(f, "time {}, {}", self.time, self.event)
    }
}
