//! The check of a plan that was read: names become numbers, every node gets its schemas, and the first
//! fault is named. It stands on the plan's tree and on the types of operations.
//!
//! Its one promise: `check` gives the plan of a tree, or exactly its first fault.
#![tactic(auto)]

pub mod check;
pub mod laws;
mod names;
mod node;
mod numbering;
mod ops;
mod schemas;
mod walk;
