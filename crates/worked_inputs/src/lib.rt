//! The plans and the inputs of runs, read from files in memory. It stands on `job_inputs` and on the outside
//! in memory, and holds nothing but tests.
//!
//! Its one promise: of each row of words what is told is what the table says.
#![tactic(auto)]

#[cfg(test)]
mod tests;
