//! The reading half of a lot: a feed gives the records of kept pages, of a run's pages and of the page
//! under way, in order. It stands on segments, on pages and on runs.
//!
//! Its one promise: the records that a feed gives are those that were left, in order, and every segment
//! that it was lent or given stands in the feed until it is given back.
#![tactic(auto)]

mod advance;
pub mod feed;
mod give;
pub mod laws;
mod lists;
mod moves;
pub mod run_stream;
