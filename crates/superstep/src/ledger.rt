ghost use Rattle.std.specs.Prelude.{◌≡◌, length};

use segment_core::Pool;

/// How many of an engine's segments are free. The engine alone makes it, of its pool.
#[derive(Clone, Copy, Debug, PartialEq, Eq)]
pub struct Ledger {
    total: u32,
    free: u32,
}

impl Ledger {
    pub(crate) fn of(pool: &Pool) -> Ledger
        ensures total { result.total ≡ pool.now.total }
        ensures free { result.free ≡ length pool.now.free }
    {
        Ledger {
            total: pool.total(),
            free: pool.free(),
        }
    }

    /// The segments that the engine was opened with.
    pub fn total(&self) -> u32
        ensures { result ≡ self.now.total }
    {
        self.total
    }

    /// Those that nobody holds.
    pub fn free(&self) -> u32
        ensures { result ≡ self.now.free }
    {
        self.free
    }
}
