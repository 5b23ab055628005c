//! The worked rows, run through the top calls of both programs over files in memory. It stands on the top
//! calls and on the outside in memory, and holds nothing but tests.
//!
//! Its one promise: what a program prints for each row is what the row's author says.
#![tactic(auto)]

#[cfg(test)]
mod job;
#[cfg(test)]
mod plans;
#[cfg(test)]
mod tests;
