//! The top calls of the two programs: from the words of the command line to the printed lines. It
//! stands on everything below.
//!
//! Its one promise: `flink_main` and `plain_main` end as the relation `IsOutcome` says: status 0 has
//! printed exactly the text that was asked for, for a run the lines of the plan's result over its inputs in
//! tuple order, and each other status has its cause.
#![tactic(auto)]

pub mod ended;
pub mod laws;
mod print;
mod run;
pub mod top;
mod words;
