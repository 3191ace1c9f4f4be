//! What a pool of waiting requests is.

ghost use Rattle.std.specs.Prelude.{◌≡◌, ℕ, ◌<◌, ◌≤◌, List, length, is_some, nat_lt};
ghost use Rattle.pools.specs.Lines.{empty_lists, line, put_answer, put_lists, shown, taken_lists};
ghost use Rattle.pools.specs.declared.request.Request.{Request};

use crate::refusal::Refusal;
use crate::request::Request;

/// The waiting requests of sixteen applications, numbered from 0, sixteen at most of each. A pool
/// keeps them in the order of their coming, and chooses which of an application's goes to the disk
/// next. No call allocates.
pub trait Pool {
    // for each application its waiting requests, in the order accepted
    ghost lists: { Self → List (List Request) };

    // which of the requests of a line is next, by its place, for a position of the disk's head
    ghost choice: { List Request → ℕ → ℕ };

    /// Nothing waits any more.
    fn clear(&mut self)
        ensures { lists self.new ≡ empty_lists };

    /// The request waits behind those of its application.
    fn put(&mut self, request: Request) -> Result<(), Refusal>
        ensures answer { result ≡ put_answer request (lists self.old) }
        ensures after { lists self.new ≡ put_lists request (lists self.old) };

    /// The request of the application that is next; none exactly when nothing of it waits.
    fn show(&self, application: u8, head: u64) -> Option<Request>
        ensures answer { result ≡ shown choice (lists self.now) application head }
        ensures some { is_some result ≡ nat_lt 0 (length (line (lists self.now) application)) };

    /// The same request, which waits no more.
    fn take(&mut self, application: u8, head: u64) -> Option<Request>
        ensures answer { result ≡ shown choice (lists self.old) application head }
        ensures after { lists self.new ≡ taken_lists choice (lists self.old) application head };

    /// How many requests of the application wait.
    fn count(&self, application: u8) -> usize
        ensures { result ≡ length (line (lists self.now) application) };

    ghost within: { (xs : List Request) (head : ℕ) → 0 < length xs → choice xs head < length xs };

    ghost sixteen: { (p : Self) → length (lists p) ≡ 16 };

    ghost few: { (p : Self) (a : ℕ) → length (line (lists p) a) ≤ 16 };
}
