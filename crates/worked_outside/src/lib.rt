//! Tests of the outside: words, files, sinks and disks in memory, and two threads that meet at a gate. It
//! stands on `flow_outside` and `outside_memory`.
//!
//! Its one promise: what no contract says of them holds in these cases.
#![tactic(auto)]

#[cfg(test)]
mod gates;
#[cfg(test)]
mod memory;
#[cfg(test)]
mod words;
