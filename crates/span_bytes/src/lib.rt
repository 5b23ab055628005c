//! Bytes that may lie in several pieces, and what is found of them: what the engine needs of bytes
//! alone, whatever is written in them. It stands on nothing of the project.
//!
//! Its one promise: what is read of pieces is read of the one list of bytes that they stand for.
#![tactic(auto)]

pub mod compare;
pub mod part;
pub mod span;
