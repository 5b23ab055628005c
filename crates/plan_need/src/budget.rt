use thiserror::Error;

/// How a budget of segments is divided. All but the first three are segments of one worker; the few
/// that no share holds stay in the pool.
#[derive(Clone, Copy, Debug, PartialEq, Eq)]
pub struct Allot {
    /// How many workers there are.
    pub workers: u32,
    /// The bytes of a segment.
    pub segment: u32,
    /// The budget.
    pub total: u32,
    /// The segments of one worker.
    pub share: u32,
    /// Those of its exchange with others.
    pub exchange: u32,
    /// Those of its solution set.
    pub solution: u32,
    /// Those that keep datasets.
    pub cache: u32,
    /// Those of its work.
    pub work: u32,
}

/// A budget is below the plan's minimum.
#[derive(Clone, Copy, Debug, PartialEq, Eq, Error)]
#[error("too few segments")]
pub struct TooSmall {
    /// The minimum.
    pub need: u64,
    /// The budget.
    pub have: u64,
}
