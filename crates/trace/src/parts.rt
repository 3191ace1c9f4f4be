//! Parts of the caller's bytes.

pub use files::parts::{Body, Placed};
