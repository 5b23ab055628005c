//! The outside in memory: files, a sink, a disk, a disk that keeps nothing, an open gate, and a gate at
//! which two workers meet. They serve tests and callers that have no files. It stands on `flow_outside`.
//!
//! Its one promise: the files, the sink and the disk tell their contents, and a call fails only where it
//! was told to, where a name is unknown, or where room, blocks or memory are wanting.
#![tactic(auto)]

mod calls;
mod counts;
pub mod file_name;
mod files;
pub mod meet_gate;
pub mod mem_shelf;
pub mod mem_sink;
pub mod mem_spill;
pub mod no_gate;
mod places;
mod spill_blocks;
pub mod spill_calls;
pub mod zero_spill;
