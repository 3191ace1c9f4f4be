//! What can happen to an application.

use pools::request::Kind;

/// The events, each seen by one application: an arrival by the request's, the others by the one that is served.
#[derive(Clone, Copy, Debug, PartialEq, Eq)]
pub enum Event {
    Arrival,
    Dispatch,
    /// The request that is completed was of this kind.
    Completion(Kind),
    Tick,
}
