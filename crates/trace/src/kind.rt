//! The kind of a request, which is that of the pools.

pub use records::kind::Kind;
