//! The plan and the inputs of a run: a plan's file, the files that its sources are bound to, and the rows
//! in them. It stands on the check of plans, on the lines of inputs and on shelves.
//!
//! Its one promise: each step gives what the files' contents say, or exactly the first fault, and a
//! failed read only where the count of faults of its file rose.
#![tactic(auto)]

pub mod inputs;
mod ops;
pub mod plan;
pub mod sources;
