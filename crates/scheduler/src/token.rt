//! The receipt for the request in flight, and the answers that speak of it.

ghost use Rattle.std.specs.Prelude.{◌≡◌};
ghost use Rattle.scheduler.specs.Answers.{request_of};

use machine::refusal::Refusal;
use pools::request::Request;

/// What a dispatch hands out for the request it sends. It cannot be copied, dropped or made by a caller:
/// it is handed to a completion, once.
#[derive(Debug)]
pub struct Token {
    pub(crate) request: Request,
}

impl Token {
    /// The request that the token stands for.
    pub fn request(&self) -> Request
        ensures { result ≡ request_of self.now }
    {
        self.request
    }
}

/// A completion that was refused: why, and the token back.
#[derive(Debug)]
pub struct Returned {
    pub refusal: Refusal,
    pub token: Token,
}

/// What an accepted dispatch answers. What is sent is a token for a caller, and the request itself inside.
#[derive(Clone, Copy, Debug)]
pub enum Dispatched<T> {
    /// This goes to the disk.
    Send(T),
    /// The disk is held for the application until then.
    Hold { application: u8, until: u64 },
    /// Nobody wants the disk.
    None,
}
