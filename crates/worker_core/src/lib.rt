//! One worker: its lots, by the nodes of a plan, and what it does with their rows. It stands on a
//! worker's storage, on operations that go row by row, and on how a budget of segments is divided.
//!
//! Its one promise: `stage` puts behind the rows that a worker holds of a node exactly those that
//! the node's op makes of what it holds of the node's inputs, keeps all else, and takes no memory.
#![tactic(auto)]

mod opening;
mod staging;
pub mod worker;
