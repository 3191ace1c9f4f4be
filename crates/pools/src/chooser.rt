//! The one thing in which pools differ.

ghost use Rattle.std.specs.Prelude.{◌≡◌, ℕ, ◌<◌, List, length};
ghost use Rattle.pools.specs.declared.request.Request.{Request};

use crate::request::Request;

/// A way to choose the next request of a line.
pub trait Chooser {
    // the place that is chosen, by the line and the position of the disk's head
    ghost choice: { List Request → ℕ → ℕ };

    fn choose(&self, line: &[Request], head: u64) -> usize
        ensures { result ≡ choice line.now head };

    ghost within: { (xs : List Request) (head : ℕ) → 0 < length xs → choice xs head < length xs };
}
