//! The stamp table: virtual time, and where each application stands in it.

ghost use Rattle.stamps.specs.Tables.{Sound};

use rosters::stamp::Stamp;

mod methods;

/// Each application's row, and who is served; at most one is. Virtual times are counted in 64 bits,
/// which suffice as long as no more than 2^40 sectors are sent.
// No impl Model: the proofs of callers need this fact, and with a model they would see the value alone.
#[derive(Drop)]
pub struct StampTable {
    stamps: Vec<Stamp>,
    virtual_time: u64,
    serving: Option<usize>,
    sent: u64,
    ghost sound: { ∥ Sound (record { virtual = virtual_time; sent = sent; serving = serving; stamps = stamps.items }) ∥₁ },
}
