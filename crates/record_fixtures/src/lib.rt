//! What several crates of tests need of records: bytes in pieces. It stands on `span_bytes` alone.
//!
//! Its one promise: its spans show exactly the bytes that they are made of.
#![tactic(auto)]

pub mod pieces;
