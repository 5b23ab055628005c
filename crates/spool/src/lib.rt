//! Runs of pages on a disk: a writer that puts pages one after the other, a reader that gives them back
//! in order, and the end of a run. It stands on segments, on pages and on the traits of the outside.
//!
//! Its one promise: the pages that are read are the pages that were pushed, in order; a run's blocks end
//! with it, and no call changes a live block of anyone else or takes memory.
#![tactic(auto)]

pub mod discard;
mod header;
pub mod io;
mod place;
pub mod reader;
pub mod run;
pub mod spill;
pub mod writer;
