//! The outside that the machine has: real files, a disk that is a file, the two standard outputs, and the
//! words of the command line. It stands on `flow_outside`.
//!
//! Its one promise: each call fails only where the count of faults rose. It tells nothing of what a
//! file or a terminal holds.
#![tactic(auto)]

pub mod command_line;
pub mod file_shelf;
pub mod file_spill;
pub mod print_sink;
mod slots;
mod spill_file;
mod write_some;
