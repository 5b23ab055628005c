/// What a worker's solution set needs in a superstep of a delta iteration, and what it has, in bytes.
#[derive(Clone, Copy, Debug, PartialEq, Eq)]
pub struct Demand {
    /// The number of the iteration's node.
    pub node: u32,
    /// The superstep after which the set is so; 0 is the first load.
    pub step: u64,
    /// The worker, from 0.
    pub worker: u32,
    /// For each entry of the worker 8 and the bytes of its record.
    pub need: u64,
    /// The bytes of the worker's segments for its solution set but one.
    pub have: u64,
}
