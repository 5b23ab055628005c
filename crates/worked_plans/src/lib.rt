//! Plans as text, read and checked, and operations typed: tables of what is accepted and of the first fault
//! of what isn't. It stands on the reading and on the check of plans, and holds nothing but tests.
//!
//! Its one promise: over ample memory each line of the tables has its answer.
#![tactic(auto)]

#[cfg(test)]
mod checking;
#[cfg(test)]
mod reading;
#[cfg(test)]
mod typing;
