//! A file split into its parts.

ghost use Rattle.std.specs.Prelude.{◌≡◌, ◌≤◌, length};

use crate::parts::Body;

/// The parts of a file whose contents were accepted. Its records are not judged yet.
#[derive(Drop)]
pub(crate) struct Split<'a> {
    pub(crate) settings: &'a [u8; 8],
    pub(crate) applications: Body<'a>,
    pub(crate) requests: Body<'a>,
    pub(crate) events: Body<'a>,
    ghost few_applications: { length applications.bytes.now ≤ 120 },
    ghost few_requests: { length requests.bytes.now ≤ 15360 },
    ghost few_events: { length events.bytes.now ≤ 15360 },
}
