//! The waiting requests of one application.

ghost use Rattle.std.specs.Prelude.{◌≤◌, vec_len, vec_capacity};

use crate::request::Request;

mod methods;

/// Sixteen requests at most, oldest first; the room for them is made with the line.
#[derive(Drop)]
pub(crate) struct Line {
    requests: Vec<Request>,
    // No impl Model: contracts would see a list of any length, and a pool's law `few` has to hold of every line.
    ghost few: { vec_len requests ≤ 16 },
    ghost room: { 16 ≤ vec_capacity requests },
}
