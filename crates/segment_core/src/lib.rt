//! Memory segments: a pool that makes them, purses that carry them, and the ledger that says where
//! each one is. It stands on nothing but the kit.
//!
//! Its one promise: of the segments of a pool each stands exactly once among the pool, the purses
//! and all else that holds segments, and no call changes a segment's id or its number of bytes.
#![tactic(auto)]

mod faults;
mod ledger;
mod pool;
mod purse;
mod segment;

pub use faults::{LeaseFault, PoolFault};
pub use ledger::ledger_stays;
pub use pool::{MOST_SEGMENTS, Pool};
pub use purse::Purse;
pub use segment::{LARGEST_SIZE, SMALLEST_SIZE, Segment};
