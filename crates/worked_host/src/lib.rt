//! Real files, a disk that is a file, and the two standard outputs. It stands on `outside_host`, and holds
//! nothing but tests.
//!
//! Its one promise: what is written is what is read back, and each failure is counted.
#![tactic(auto)]

#[cfg(test)]
mod tests;
