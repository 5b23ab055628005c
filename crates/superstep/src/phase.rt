/// Where an engine stands.
#[derive(Clone, Copy, Debug, PartialEq, Eq)]
pub enum Phase {
    /// Rows may be loaded, and the result made.
    Ready,
    /// The result is there, to be printed.
    Done,
    /// A call that loads or executes ended with a fault.
    Failed,
}
