//! A pool that sends the youngest request first.

ghost use Rattle.own_pool.specs.Choices.{youngest};
ghost use Rattle.std.proofs.Common.{rules};

use pools::chooser::Chooser;
use pools::request::Request;
use pools::table::Table;

/// Chooses the youngest.
#[derive(Clone, Copy, Default)]
pub struct Youngest;

impl Chooser for Youngest {
    ghost choice = { youngest };

    ghost within = { Prim.search rules };

    fn choose(&self, line: &[Request], head: u64) -> usize {
        line.len().saturating_sub(1)
    }
}

/// Made by `LastCome::new(heap)`.
pub type LastCome = Table<Youngest>;
