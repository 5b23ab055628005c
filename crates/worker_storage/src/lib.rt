//! A worker's storage: its purse of segments, its disk, and its lots by their places. It stands on
//! lots and on operations that go row by row.
//!
//! Its one promise: whatever a call answers, the lots go on standing together on the disk, each
//! that wasn't written holds what it held, no block of anybody else changed, and every segment is
//! in the purse or in a lot.
#![tactic(auto)]

mod counting;
mod places;
mod storage;

pub use crate::storage::WorkerStorage;
