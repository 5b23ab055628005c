//! The outside as the runtime sees it: files to read, sinks to write, disks to spill to, and a
//! gate that workers pass. It stands on nothing.
//!
//! Its one promise: a call is answered `Failed` only where its object's count of faults rose in
//! that call, and where an object tells its contents, what is read is what is there.
#![tactic(auto)]

pub mod failure;
pub mod gate;
pub mod read_file;
pub mod shelf;
pub mod sink;
pub mod slots;
pub mod spill;
pub mod words;
pub mod write_all;
