//! Lots over disks in memory: filled, rested, read twice and dropped, and each call of the disk failing in
//! turn. It stands on `lot_store` and on the outside in memory, and holds nothing but tests.
//!
//! Its one promise: over ample memory a lot's records come back whole and in order, a call that fails is
//! told, and every segment goes home.
#![tactic(auto)]

#[cfg(test)]
mod cuts;
#[cfg(test)]
mod lots;
#[cfg(test)]
mod rows;
#[cfg(test)]
mod tests;
