//! The scheduler itself: one pool and one budget rule, of whichever kinds.

use crate::desk::Desk;
use stamps::table::StampTable;

pub mod calls;
mod events;
mod judge;
pub mod seal;

/// A sealed roster's scheduler. Its applications, their virtual times and budgets are in the stamp
/// table, the requests that wait in the pool.
// Contracts see the fields, and the machine is made of these. A model would hide what their types say of every
// scheduler: the table is sound, no line is longer than 16, and the clock and all that was accepted are in bounds.
#[derive(Drop)]
pub struct Scheduler<P, R> {
    pool: P,
    rule: R,
    table: StampTable,
    desk: Desk,
}
