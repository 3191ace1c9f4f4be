//! A roster of applications, to which more may be added until it is sealed.

ghost use Rattle.std.specs.Prelude.{◌≡◌, ◌<◌, ◌≤◌, [], vec_len, vec_capacity};
ghost use Rattle.rosters.specs.Applications.{AllInRange, Begins};

use crate::application::Application;
use crate::stamp::Stamp;

mod methods;

/// Up to 16 applications, numbered from 0, and how long the disk is held for one that has just been
/// served. Application 0 is always there. Room for all is made with the roster.
// No impl Model: the proofs of callers need these facts, and with a model they would see the value alone.
#[derive(Drop)]
pub struct Roster {
    applications: Vec<Application>,
    // the room for their stamps, empty until the roster is sealed, which may not run out of memory
    stamps: Vec<Stamp>,
    hold: u32,
    ghost few: { vec_len applications ≤ 16 },
    ghost some: { 0 < vec_len applications },
    ghost begins: { Begins applications.items },
    ghost each: { AllInRange applications.items },
    ghost room: { 16 ≤ vec_capacity applications },
    ghost blank: { stamps.items ≡ [] },
    ghost stamp_room: { 16 ≤ vec_capacity stamps },
    ghost hold_low: { 1 ≤ hold },
    ghost hold_high: { hold ≤ 1000000 },
}
