//! The contents at a file's head: where each body begins, and how many records it has.

ghost use Rattle.std.specs.Prelude.{◌≡◌, ◌<◌, ◌≤◌, length, IfOk};
ghost use Rattle.files.specs.Contents.{misplaced, entry, contents, judge_counts, requests_at, events_at, end_of};

use fields::get::get;
use records::fault::{Cause, Fault, Layer};
use std::marker::Model;

/// How many records each body has. There is one of settings.
#[derive(Clone, Copy)]
pub struct Contents {
    pub applications: usize,
    pub requests: usize,
    pub events: usize,
}

impl Model for Contents {
    ghost use Rattle.files.specs.Counts.{Counts, Few, counts};

    ghost Value = { Counts };

    ghost view = { λ c. counts c.applications c.requests c.events };

    ghost invariant = { λ c. Few (counts c.applications c.requests c.events) };

    ghost inverse = { λ c. record { applications = c.applications; requests = c.requests; events = c.events } };
}

fn layout(place: usize) -> Fault
    ensures { result ≡ misplaced place }
{
    Fault::new(Layer::Contents, Cause::Layout, place)
}

/// The record count of the entry at `index`, which must give that offset.
fn entry(
    bytes: &[u8],
    index: usize,
    offset: usize,
    least: usize,
    most: usize,
) -> Result<usize, Fault>
    requires whole { 32 ≤ length bytes.now }
    requires few { index < 4 }
    ensures answer { result ≡ entry index offset least most bytes.now }
    ensures bound { IfOk result (λ n. n ≤ most) }
{
    let begins: u32 = get(bytes, 8 * index);
    let count: u32 = get(bytes, 8 * index + 4);
    let count = count as usize;
    if begins as usize != offset || !(least..=most).contains(&count) {
        return Err(layout(index));
    }
    Ok(count)
}

impl Contents {
    /// The first layer of reading: what the contents say must be so.
    pub fn read(bytes: &[u8]) -> Result<Contents, Fault>
        ensures answer { result ≡ contents bytes.now }
        ensures ends { IfOk result (λ c. length bytes.now ≡ end_of c) }
    {
        if bytes.len() < 32 {
            return Err(Fault::new(Layer::Contents, Cause::TooShort, 0));
        }
        entry(bytes, 0, 32, 1, 1)?;
        let applications = entry(bytes, 1, 40, 0, 15)?;
        let requests = entry(bytes, 2, 40 + 8 * applications, 0, 960)?;
        let events = entry(bytes, 3, 40 + 8 * applications + 16 * requests, 0, 960)?;
        let contents = Contents {
            applications,
            requests,
            events,
        };
        if bytes.len() != contents.end() {
            return Err(layout(4));
        }
        Ok(contents)
    }

    /// The contents of a file of so many records.
    pub fn of(applications: usize, requests: usize, events: usize) -> Result<Contents, Fault>
        ensures { result ≡ judge_counts applications requests events }
    {
        if applications > 15 {
            return Err(layout(1));
        }
        if requests > 960 {
            return Err(layout(2));
        }
        if events > 960 {
            return Err(layout(3));
        }
        Ok(Contents {
            applications,
            requests,
            events,
        })
    }

    /// Where the requests begin.
    pub fn requests_at(self) -> usize
        ensures { result ≡ requests_at self.applications }
    {
        40 + 8 * self.applications
    }

    /// Where the events begin.
    pub fn events_at(self) -> usize
        ensures { result ≡ events_at self.applications self.requests }
    {
        self.requests_at() + 16 * self.requests
    }

    /// Where the file ends.
    pub fn end(self) -> usize
        ensures { result ≡ end_of self }
    {
        self.events_at() + 16 * self.events
    }
}
