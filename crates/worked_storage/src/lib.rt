//! An operator over three lots of a worker's storage: the rows of two go behind those of the
//! third. No program uses it. It stands on `worker_storage` and the crates below it.
//!
//! Its one promise: an operator with two inputs and an output has clauses of the same form as one
//! with one input, and they are proved from the calls of the storage and their laws alone, with no
//! word of a block or a segment.
#![tactic(auto)]

mod copy;

pub use crate::copy::copy_both;
