//! The waiting requests of all applications.

ghost use Rattle.std.specs.Prelude.{◌≡◌, vec_len};

use crate::line::Line;

mod methods;

/// A line for each of sixteen applications, by its number.
#[derive(Drop)]
pub(crate) struct Lines {
    lines: Vec<Line>,
    // No impl Model: contracts would see a list of any length, and a pool's law `sixteen` has to hold of all lines.
    ghost sixteen: { vec_len lines ≡ 16 },
}
