ghost use Rattle.std.specs.Prelude.{◌≤◌};

/// Reads the pages of a run, from the first one on.
#[derive(Debug, Drop)]
pub struct RunReader {
    /// The block of the next page.
    pub(crate) at: u64,
    /// How many pages are left.
    pub(crate) left: u64,
    /// How many pages the run has.
    pub(crate) pages: u64,
    /// The block that was read last, 0 where none was read.
    pub(crate) block: u64,
    ghost within: { left ≤ pages },
}
