/// The programs whose words and lines are known.
#[derive(Clone, Copy, Debug, PartialEq, Eq)]
pub enum Program {
    /// The runtime.
    FlinkRun,
    /// The definitions' own program.
    PlainRun,
}
