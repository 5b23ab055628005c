//! When a solution set would be full: the first superstep and worker of a plan's run, by node, superstep
//! and worker, where the records of the worker's entries take more bytes than its segments have. It
//! stands on the plain program, whose states it goes through, and on the numbers of a budget.
//!
//! Its one promise: `full` gives exactly the demand that the definition gives, and none exactly where
//! that gives none. It is slow: it goes as the definition goes.
#![tactic(auto)]

pub mod demand;
pub mod fullness;
pub mod hash;
mod need;
mod shares;
mod states;
