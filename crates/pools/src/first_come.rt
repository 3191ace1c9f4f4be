//! First-come: the oldest request goes first.

ghost use Rattle.pools.specs.Choices.{oldest};
ghost use Rattle.std.proofs.Common.{rules};

use crate::chooser::Chooser;
use crate::request::Request;
use crate::table::Table;

/// Chooses the oldest.
#[derive(Clone, Copy, Default)]
pub struct Oldest;

impl Chooser for Oldest {
    ghost choice = { oldest };

    ghost within = { Prim.search rules };

    fn choose(&self, line: &[Request], head: u64) -> usize {
        0
    }
}

/// The pool that sends an application's requests as they came.
pub type FirstCome = Table<Oldest>;
