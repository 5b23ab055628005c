//! How a run ended, and what is told of it: faults, statuses, and a fault's line. It stands on plans'
//! codes, on inputs' kinds of faults and on sinks.
//!
//! Its one promise: `write_line` writes exactly a fault's line, or a proper prefix where the sink's
//! count rose.
#![tactic(auto)]

pub mod fault;
pub mod report;
