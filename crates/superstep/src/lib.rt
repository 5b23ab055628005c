//! Plans on workers: an engine that loads inputs, makes a plan's nodes and prints the result, on a
//! fixed number of segments. It stands on `worker_core` and on `delim_io`.
//!
//! Its one promise: what an engine holds of the result, once it executed well, is what the plan
//! gives of the rows that were loaded; and whatever a call answers, every segment stands in one
//! place.
#![tactic(auto)]

mod closing;
mod emitting;
pub mod engine;
mod executing;
pub mod faults;
pub mod ledger;
mod loading;
mod opening;
pub mod outer;
pub mod phase;
pub mod receipt;
