ghost use Rattle.std.specs.Prelude.{◌≡◌, ◌+◌, ◌-◌, ◌^◌, ◌≤◌, min};

use std::alloc::{AllocError, AllocFailed};
use thiserror::Error;

/// A call to the outside failed. The object's count of faults rose in that call.
#[derive(Clone, Copy, Debug, PartialEq, Eq, Error)]
#[error("the device failed")]
pub struct Failed;

/// Counts one more fault, and gives the answer for it. The count stands still at its type's end.
pub fn count_fault(count: &mut u64) -> Failed
    ensures later { count.old ≤ count.new }
    ensures one_more { count.new ≡ min (count.old + 1) (2 ^ 64 - 1) }
{
    *count = count.saturating_add(1);
    Failed
}

/// Want of memory.
#[derive(Clone, Copy, Debug, PartialEq, Eq, Error)]
#[error("out of memory")]
pub struct Memory;

impl From<AllocError> for Memory {
    fn from(_refused: AllocError) -> Memory {
        Memory
    }
}

impl<T: Drop> From<AllocFailed<T>> for Memory {
    fn from(_refused: AllocFailed<T>) -> Memory {
        Memory
    }
}

/// A stream of spilled records ended early.
#[derive(Clone, Copy, Debug, PartialEq, Eq, Error)]
pub enum StreamFault {
    /// The disk failed: its count rose in this call.
    #[error("the spill device failed")]
    Spill,
    /// The page in this block isn't one that was written. Only over a disk that doesn't tell.
    #[error("block {block} is damaged")]
    Damaged { block: u64 },
}
