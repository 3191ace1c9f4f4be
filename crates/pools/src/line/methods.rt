//! What one line can be asked and told.

ghost use Rattle.std.specs.Prelude.{◌≡◌, [], ◌∷◌, ◌++◌, IfOk};
ghost use Rattle.std.specs.List.{remove, slice_get};
ghost use Rattle.pools.specs.Lines.{if_ok, join_answer};
ghost use Rattle.pools.specs.View.{waiting};

use crate::line::Line;
use crate::refusal::Refusal;
use crate::request::Request;
use std::alloc::{AllocError, Global};

impl Line {
    pub(crate) fn new(heap: Global) -> Result<Line, AllocError>
        ensures { IfOk result (λ l. waiting l ≡ []) }
    {
        let requests = Vec::with_capacity(heap, 16)?;
        Ok(Line { requests })
    }

    pub(crate) fn requests(&self) -> &[Request]
        ensures { result.now ≡ waiting self.now }
    {
        &self.requests
    }

    pub(crate) fn clear(&mut self)
        ensures { waiting self.new ≡ [] }
    {
        self.requests.clear();
    }

    /// The request joins the end, if there is room.
    pub(crate) fn push(&mut self, request: Request) -> Result<(), Refusal>
        ensures answer { result ≡ join_answer (waiting self.old) }
        ensures after { waiting self.new ≡ if_ok result (waiting self.old ++ (request ∷ [])) (waiting self.old) }
    {
        if self.requests.len() >= 16 {
            return Err(Refusal::Full);
        }
        self.requests.push_reserved(request);
        Ok(())
    }

    /// The request at that place leaves the line; the others keep their order.
    pub(crate) fn remove(&mut self, place: usize) -> Option<Request>
        ensures answer { result ≡ slice_get (waiting self.old) place }
        ensures after { waiting self.new ≡ remove (waiting self.old) place }
    {
        self.requests.get(place)?;
        Some(self.requests.remove(place))
    }
}
