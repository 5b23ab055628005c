//! Runs on disks in memory: written, read twice and ended, and each call of the disk failing in turn.
//! It stands on `spool` and on the outside in memory, and holds nothing but tests.
//!
//! Its one promise: over ample memory a run comes back whole, and a call that fails is told.
#![tactic(auto)]

#[cfg(test)]
mod pages;
#[cfg(test)]
mod tests;
