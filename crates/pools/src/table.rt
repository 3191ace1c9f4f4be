//! One table of lines serves every way to choose.

ghost use Rattle.std.specs.Prelude.{◌≡◌, IfOk};
ghost use Rattle.pools.specs.Lines.{empty_lists};
ghost use Rattle.pools.specs.View.{lists_of};
ghost use Rattle.pools.specs.Standing.{sixteen_lines, few_in_line};
ghost use Rattle.std.proofs.Common.{rules};

use crate::chooser::Chooser;
use crate::lines::Lines;
use crate::pool::Pool;
use crate::refusal::Refusal;
use crate::request::Request;
use std::alloc::{AllocError, Global};

/// A pool that chooses as its chooser says.
#[derive(Drop)]
pub struct Table<C> {
    lines: Lines,
    chooser: C,
}

impl<C: Chooser + Drop> Table<C> {
    /// An empty pool, with the room for all that may ever wait in it.
    pub fn with_chooser(heap: Global, chooser: C) -> Result<Table<C>, AllocError>
        ensures { IfOk result (λ t. lists_of t ≡ empty_lists) }
    {
        let lines = Lines::new(heap)?;
        Ok(Table { lines, chooser })
    }
}

impl<C: Chooser + Default + Drop> Table<C> {
    /// An empty pool, of a kind whose chooser needs nothing to be made.
    pub fn new(heap: Global) -> Result<Table<C>, AllocError>
        ensures { IfOk result (λ t. lists_of t ≡ empty_lists) }
    {
        Table::with_chooser(heap, C::default())
    }
}

impl<C: Chooser> Pool for Table<C> {
    ghost lists = { λ t. lists_of t };

    ghost choice = { C.Chooser.choice };

    ghost within = { Prim.search rules };

    ghost sixteen = { λ p. sixteen_lines p.lines };

    ghost few = { λ p a. few_in_line p.lines a };

    fn clear(&mut self) {
        self.lines.clear();
    }

    fn put(&mut self, request: Request) -> Result<(), Refusal> {
        self.lines.put(request)
    }

    fn show(&self, application: u8, head: u64) -> Option<Request> {
        let line = self.lines.line(application);
        let place = self.chooser.choose(line, head);
        line.get(place).copied()
    }

    fn take(&mut self, application: u8, head: u64) -> Option<Request> {
        let place = self.chooser.choose(self.lines.line(application), head);
        self.lines.remove(application, place)
    }

    fn count(&self, application: u8) -> usize {
        self.lines.line(application).len()
    }
}
