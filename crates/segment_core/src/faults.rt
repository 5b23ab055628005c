use thiserror::Error;

/// Why a pool or a purse wasn't opened.
#[derive(Clone, Copy, Debug, PartialEq, Eq, Error)]
pub enum PoolFault {
    /// Want of memory.
    #[error("out of memory")]
    Memory,
    /// The size is none that a segment may have.
    #[error("a segment has 4096, 8192, 16384 or 32768 bytes")]
    BadSize,
    /// There would be no segment, or more than a pool may have.
    #[error("a pool has 1 to 65536 segments")]
    BadCount,
}

/// Why no segments were leased.
#[derive(Clone, Copy, Debug, PartialEq, Eq, Error)]
pub enum LeaseFault {
    /// Want of memory.
    #[error("out of memory")]
    Memory,
    /// Fewer segments are free than were asked for.
    #[error("only {free} segments are free")]
    Short { free: u32 },
}
