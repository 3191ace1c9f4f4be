//! What a roster can be asked and told.

ghost use Rattle.std.specs.Prelude.{◌≡◌, ◌≤◌, map, length, IfOk};
ghost use Rattle.rosters.specs.Stamps.{new_stamp};
ghost use Rattle.std.specs.List.{slice_get};
ghost use Rattle.rosters.specs.Rosters.{line_up, fresh, added, add_answer, held, hold_answer, total_weight, weights, largest_limit, largest};

use crate::application::Application;
use crate::ranges::{is_hold, is_limit, is_weight};
use crate::refusal::Refusal;
use crate::roster::Roster;
use crate::stamp::Stamp;
use std::alloc::{AllocError, Global};

const MOST_APPLICATIONS: usize = 16;

impl Roster {
    /// A roster of application 0 alone, of weight 1 and limit 256, with a hold of 8 ticks.
    pub fn new(heap: Global) -> Result<Roster, AllocError>
        ensures { IfOk result (λ x. line_up x ≡ fresh) }
    {
        let mut applications = Vec::with_capacity(heap, MOST_APPLICATIONS)?;
        let stamps = Vec::with_capacity(heap, MOST_APPLICATIONS)?;
        applications.push_reserved(Application {
            weight: 1,
            limit: 256,
        });
        Ok(Roster {
            applications,
            stamps,
            hold: 8,
        })
    }

    /// One application more; answers its number.
    pub fn add(&mut self, weight: u8, limit: u32) -> Result<usize, Refusal>
        ensures answer { result ≡ add_answer weight limit (line_up self.old) }
        ensures after { line_up self.new ≡ added weight limit (line_up self.old) }
    {
        let number = self.applications.len();
        if number >= MOST_APPLICATIONS {
            return Err(Refusal::Full);
        }
        if !is_weight(weight) {
            return Err(Refusal::Weight);
        }
        if !is_limit(limit) {
            return Err(Refusal::Limit);
        }
        self.applications
            .push_reserved(Application { weight, limit });
        Ok(number)
    }

    /// Sets how many ticks the disk is held for.
    pub fn set_hold(&mut self, ticks: u32) -> Result<(), Refusal>
        ensures answer { result ≡ hold_answer ticks }
        ensures after { line_up self.new ≡ held ticks (line_up self.old) }
    {
        if !is_hold(ticks) {
            return Err(Refusal::Hold);
        }
        self.hold = ticks;
        Ok(())
    }

    /// How many applications there are.
    pub fn len(&self) -> usize
        ensures { result ≡ length (line_up self.now).applications }
    {
        self.applications.len()
    }

    /// The application of that number, if there is one.
    pub fn application(&self, number: usize) -> Option<Application>
        ensures { result ≡ slice_get (line_up self.now).applications number }
    {
        self.applications.get(number).copied()
    }

    /// How many ticks the disk is held for.
    pub fn hold(&self) -> u32
        ensures { result ≡ (line_up self.now).hold }
    {
        self.hold
    }

    /// T: the sum of all weights.
    pub fn total_weight(&self) -> u32
        ensures { result ≡ total_weight (line_up self.now) }
    {
        self.applications.iter().map(|a| u32::from(a.weight)).sum()
    }

    /// M: the largest limit.
    pub fn largest_limit(&self) -> u32
        ensures { result ≡ largest_limit (line_up self.now) }
    {
        self.applications.iter().map(|a| a.limit).max().unwrap_or(0)
    }

    /// The rows of a stamp table for these applications. The roster is used up.
    pub fn into_stamps(self) -> Vec<Stamp>
        ensures { result.items ≡ map (new_stamp (total_weight (line_up self))) (line_up self).applications }
    {
        let total_weight = self.total_weight();
        let Roster {
            applications,
            mut stamps,
            hold: _,
        } = self;
        for a in &applications {
            stamps.push_reserved(Stamp::new(total_weight, *a));
        }
        stamps
    }
}
