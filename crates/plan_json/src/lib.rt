//! The forms of a plan's members that hold no expression, as JSON that `serde_json` has read: names,
//! numbers, types, keys, folds, orders and words. It stands on the types of plans.
//!
//! Its one promise: each reader gives exactly the value that the member's form in `specs/` gives, or
//! exactly its first flaw, memory aside.
#![tactic(auto)]

pub mod folds;
pub mod json;
pub mod names;
pub mod numbers;
pub mod reading;
pub mod rows;
pub mod types;
pub mod words;
