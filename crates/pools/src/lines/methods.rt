//! What the lines can be asked and told. An application above 15 has no line.

ghost use Rattle.std.specs.Prelude.{◌≡◌, IfOk, slice_set};
ghost use Rattle.std.specs.List.{remove, slice_get};
ghost use Rattle.pools.specs.Lines.{empty_lists, line, put_answer, put_lists};
ghost use Rattle.pools.specs.View.{all_waiting};

use crate::line::Line;
use crate::lines::Lines;
use crate::refusal::Refusal;
use crate::request::Request;
use std::alloc::{AllocError, Global};

/// Applications are numbered from 0, and below this.
const APPLICATIONS: usize = 16;

impl Lines {
    pub(crate) fn new(heap: Global) -> Result<Lines, AllocError>
        ensures { IfOk result (λ ls. all_waiting ls ≡ empty_lists) }
    {
        let mut lines = Vec::with_capacity(heap, APPLICATIONS)?;
        for _ in 0..APPLICATIONS {
            lines.push_reserved(Line::new(heap)?);
        }
        Ok(Lines { lines })
    }

    pub(crate) fn line(&self, application: u8) -> &[Request]
        ensures { result.now ≡ line (all_waiting self.now) application }
    {
        match self.lines.get(usize::from(application)) {
            Some(line) => line.requests(),
            None => &[],
        }
    }

    #[tactic(auto, using(crate::proofs::Changes::one_line))]
    pub(crate) fn clear(&mut self)
        ensures { all_waiting self.new ≡ empty_lists }
    {
        for line in self.lines.iter_mut() {
            line.clear();
        }
    }

    #[tactic(auto, using(crate::proofs::Changes::one_line))]
    pub(crate) fn put(&mut self, request: Request) -> Result<(), Refusal>
        ensures answer { result ≡ put_answer request (all_waiting self.old) }
        ensures after { all_waiting self.new ≡ put_lists request (all_waiting self.old) }
    {
        self.lines
            .get_mut(usize::from(request.application))
            .ok_or(Refusal::Unknown)?
            .push(request)
    }

    /// The request at that place of the application's line leaves it.
    #[tactic(auto, using(crate::proofs::Changes::one_line))]
    pub(crate) fn remove(&mut self, application: u8, place: usize) -> Option<Request>
        ensures answer { result ≡ slice_get (line (all_waiting self.old) application) place }
        ensures after { all_waiting self.new ≡ slice_set (all_waiting self.old) application (remove (line (all_waiting self.old) application) place) }
    {
        self.lines.get_mut(usize::from(application))?.remove(place)
    }
}
