//! What is asked of each kind of record, in bytes and in a table.

ghost use Rattle.std.specs.Prelude.{◌≡◌, ◌+◌, ◌*◌, ◌<◌};
ghost use Rattle.bodies.specs.Judging.{at_least_sound, judge_hold, judge_settings, judge_event, judge_name, judge_member, judge_member_bytes};

use crate::judge::Judge;
use records::fault::{Cause, Fault, Layer};
use records::record::FixedRecord;
use records::tables::{ApplicationRecord, Event, EventRecord, Settings};
use std::marker::PhantomData;

/// Bytes that hold a record, or the fault of the record at that place.
fn sound_or(sound: bool, place: usize) -> Result<(), Fault>
    ensures { result ≡ at_least_sound sound place }
{
    if sound {
        Ok(())
    } else {
        Err(Fault::new(Layer::Records, Cause::Byte, place))
    }
}

/// The settings, which stand at byte 32.
pub fn judge_settings(bytes: &[u8; 8]) -> Result<(), Fault>
    ensures { result ≡ judge_settings bytes.now }
{
    sound_or(Settings::is_sound(bytes), 32)
}

/// Records of one kind, the first of which stands at `first`: bytes must hold one.
#[derive(Drop)]
pub struct Sound<R> {
    pub first: u32,
    pub kind: PhantomData<R>,
}

impl<R> Sound<R> {
    pub fn from(first: u32) -> Sound<R>
        ensures { result.first ≡ first }
    {
        Sound {
            first,
            kind: PhantomData,
        }
    }
}

impl<const N: usize, R: FixedRecord<N>> Judge<[u8; N]> for Sound<R> {
    ghost verdict = { λ j i bs. at_least_sound (R.sound bs) (j.first + N * i) };

    fn judge(&self, index: usize, bytes: &[u8; N]) -> Result<(), Fault> {
        sound_or(R::is_sound(bytes), self.first as usize + N * index)
    }
}

/// The events, the first of which stands at `first`, over so many requests.
#[derive(Drop)]
pub struct Events {
    pub first: u32,
    pub requests: usize,
}

impl Events {
    fn place(&self, index: usize) -> usize
        requires { index < 960 }
        ensures { result ≡ self.now.first + 16 * index }
    {
        self.first as usize + 16 * index
    }
}

impl Judge<[u8; 16]> for Events {
    ghost verdict = { λ j i bs. judge_event j.first j.requests i bs };

    fn judge(&self, index: usize, bytes: &[u8; 16]) -> Result<(), Fault> {
        sound_or(EventRecord::is_sound(bytes), self.place(index))?;
        self.judge(index, &EventRecord::of(bytes))
    }
}

impl Judge<EventRecord> for Events {
    ghost verdict = { λ j i e. judge_name j.first j.requests i e };

    fn judge(&self, index: usize, record: &EventRecord) -> Result<(), Fault> {
        match record.event {
            Event::Arrival(request) if request as usize >= self.requests => Err(Fault::new(
                Layer::Records,
                Cause::NoRequest,
                self.place(index),
            )),
            _ => Ok(()),
        }
    }
}

/// The applications as members of a roster: the first is of application 1.
// The ranges stand here and in `rosters`: trace files are read without rosters, and rosters know of no files.
#[derive(Drop)]
pub struct Members;

impl Judge<[u8; 8]> for Members {
    ghost verdict = { λ _ i bs. judge_member_bytes i bs };

    fn judge(&self, index: usize, bytes: &[u8; 8]) -> Result<(), Fault> {
        self.judge(index, &ApplicationRecord::of(bytes))
    }
}

impl Judge<ApplicationRecord> for Members {
    ghost verdict = { λ _ i a. judge_member i a };

    fn judge(&self, index: usize, record: &ApplicationRecord) -> Result<(), Fault> {
        if !(1..=10).contains(&record.weight) {
            return Err(Fault::new(Layer::Roster, Cause::Weight, index + 1));
        }
        if !(256..=65_536).contains(&record.limit) {
            return Err(Fault::new(Layer::Roster, Cause::Limit, index + 1));
        }
        Ok(())
    }
}

/// The hold of a roster.
pub fn judge_hold(settings: Settings) -> Result<(), Fault>
    ensures { result ≡ judge_hold settings }
{
    if (1..=1_000_000).contains(&settings.hold) {
        Ok(())
    } else {
        Err(Fault::new(Layer::Roster, Cause::Hold, 0))
    }
}
