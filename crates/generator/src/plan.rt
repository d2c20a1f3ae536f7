/// The number of a generated trace is at most this: 2^31 - 1.
pub const MOST_NUMBER: u32 = 2_147_483_647;

/// A generated trace has at least so many objects.
pub const LEAST_SIZE: u32 = 1;

/// A generated trace has at most so many objects.
pub const MOST_SIZE: u32 = 1_000_000;

/// A trace to generate.
#[derive(Clone, Copy, Debug, PartialEq, Eq)]
pub struct GenPlan {
    /// Which trace of its size it is: 0 to `MOST_NUMBER`.
    pub number: u32,
    /// How many objects it has: `LEAST_SIZE` to `MOST_SIZE`.
    pub size: u32,
}
