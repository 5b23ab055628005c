/// A place that each worker passes once in each round. It lets tests see two workers at once, and
/// changes nothing that a contract sees.
pub trait Gate {
    /// Worker `worker` passes in round `round`.
    fn turn(&self, worker: u32, round: u64);
}
