//! The engine, run over files, outputs and disks in memory. It stands on `superstep`, on plans and on
//! the outside in memory, and holds nothing but tests.
//!
//! Its one promise: what is printed for each plan and file is what the table says, whatever was
//! spilled, and every segment is free at the end, whatever failed.
#![tactic(auto)]

#[cfg(test)]
mod runs;
#[cfg(test)]
mod served;
#[cfg(test)]
mod tests;
