//! One application of a roster.

/// What an application is entitled to: a weight, and the largest budget in sectors that it may be given.
#[derive(Clone, Copy, Debug, PartialEq, Eq)]
pub struct Application {
    pub weight: u8,
    pub limit: u32,
}
