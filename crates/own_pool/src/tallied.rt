//! A pool over a pool, which counts what is taken from it.

ghost use Rattle.std.proofs.Common.{rules};

use pools::pool::Pool;
use pools::refusal::Refusal;
use pools::request::Request;

/// Means what the pool below means.
#[derive(Drop)]
pub struct Tallied<P> {
    pub below: P,
    pub taken: u64,
}

impl<P: Pool> Pool for Tallied<P> {
    ghost lists = { λ t. P.Pool.lists t.below };

    ghost choice = { P.Pool.choice };

    ghost within = { Prim.search rules };

    ghost sixteen = { Prim.search rules };

    ghost few = { Prim.search rules };

    fn clear(&mut self) {
        self.below.clear();
    }

    fn put(&mut self, request: Request) -> Result<(), Refusal> {
        self.below.put(request)
    }

    fn show(&self, application: u8, head: u64) -> Option<Request> {
        self.below.show(application, head)
    }

    fn take(&mut self, application: u8, head: u64) -> Option<Request> {
        let request = self.below.take(application, head)?;
        self.taken = self.taken.saturating_add(1);
        Some(request)
    }

    fn count(&self, application: u8) -> usize {
        self.below.count(application)
    }
}
