//! Worked examples of every operation, run through the plain program over plans made in memory, and of
//! solution sets that are full. It stands on the plain program, and holds nothing but tests.
//!
//! Its one promise: what `eval_rows` and `full` give for each example is what the example's author says.
#![tactic(auto)]

#[cfg(test)]
mod fixtures;
#[cfg(test)]
mod full;
#[cfg(test)]
mod ops;
#[cfg(test)]
mod parts;
#[cfg(test)]
mod plans;
#[cfg(test)]
mod tests;
