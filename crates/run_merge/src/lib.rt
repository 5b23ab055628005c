//! Ascending streams merged into one. It stands on `paged_view` for what streams and orders are.
//!
//! Its one promise: a merge gives exactly the records that its streams have left, in the order, and of records that tie
//! those of an earlier stream first.
#![tactic(auto)]

mod choose;
mod fill;
pub mod laws;
pub mod merge;
mod prefix;
mod source;
pub mod streams;
mod take;
