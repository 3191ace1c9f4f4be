//! The report on one file.

use records::record::FixedRecord;
use std::fmt::Display;
use std::io;
use std::io::Write;
use trace::fault::Fault;
use trace::parts::{Body, Placed};
use trace::tables::{ApplicationRecord, EventRecord, RequestRecord, Settings};
use trace::trace::Trace;

/// How many lines of a table are shown.
const SHOWN: usize = 5;

pub fn report<W: Write>(out: &mut W, bytes: &[u8]) -> io::Result<()> {
    match Trace::read(bytes) {
        Ok(trace) => show(out, &trace),
        Err(fault) => show_fault(out, fault),
    }
}

pub fn show_fault<W: Write>(out: &mut W, fault: Fault) -> io::Result<()> {
    let layer = u8::from(fault.layer);
    let number = u8::from(fault.number);
    let place = fault.place;
    writeln!(out, "fault {layer} {number} {place}\n{fault}")
}

pub fn show<W: Write>(out: &mut W, trace: &Trace) -> io::Result<()> {
    let Settings { hold, rule, pool } = trace.settings();
    writeln!(out, "hold {hold}, rule {rule}, pool {pool}")?;
    let applications = trace.application_count();
    let requests = trace.request_count();
    let events = trace.event_count();
    writeln!(
        out,
        "records: applications {applications}, requests {requests}, events {events}"
    )?;
    writeln!(out, "application 0: weight 1, limit 256")?;
    // By the index, since `application` answers the record with its place in the file.
    for index in 0..applications {
        show_record(out, "application", index + 1, trace.application(index))?;
    }
    show_first::<16, RequestRecord, W>(out, "request", trace.requests())?;
    show_first::<16, EventRecord, W>(out, "event", trace.events())
}

/// The first records of a body, and how many more it has.
fn show_first<const N: usize, R: FixedRecord<N> + Display, W: Write>(
    out: &mut W,
    name: &str,
    body: Body,
) -> io::Result<()> {
    // By the index, since `record` answers the record with its place in the file.
    for index in 0..SHOWN {
        show_record(out, name, index, body.record::<N, R>(index))?;
    }
    let more = body.count::<N, R>().saturating_sub(SHOWN);
    if more > 0 {
        writeln!(out, "and {more} {name}s more")?;
    }
    Ok(())
}

/// A record, if it is there, with its number and its place in the file.
fn show_record<R: Display + Drop, W: Write>(
    out: &mut W,
    name: &str,
    number: usize,
    found: Option<Placed<R>>,
) -> io::Result<()> {
    match found {
        Some(Placed { offset, value }) => writeln!(out, "{name} {number} at {offset}: {value}"),
        None => Ok(()),
    }
}
