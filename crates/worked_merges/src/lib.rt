//! Lists of records merged by a key. It stands on `run_merge`, on `normal_key` and on the outside in memory, and holds
//! nothing but tests.
//!
//! Its one promise: a merge gives all records in the order, and those that tie in the order of their streams.
#![tactic(auto)]

#[cfg(test)]
mod listed;
#[cfg(test)]
mod tests;
