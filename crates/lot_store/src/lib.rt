//! Lots: one worker's part of a dataset, its first pages in segments and the others spilled. It stands on
//! runs, on pages and on segments.
//!
//! Its one promise: a lot with its disk stands for the bytes that were appended, in order, and every
//! segment that went in stands in the lot or in the purse, whatever a call answers.
#![tactic(auto)]

mod adding;
mod append;
mod append_page;
mod handing;
pub mod laws;
mod leaving;
pub mod lot;
mod reading;
mod rest;
mod store;
mod stored;
