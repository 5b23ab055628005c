//! Operations that go row by row, over lots on a real file: rows pass from one lot to another by the plan that asks
//! for it, with all pages in segments and with all of them spilled. It stands on `row_pipe`, on plans and on the
//! outside, and holds nothing but tests.
//!
//! Its one promise: what comes out is what the table says, with every number of kept pages, and every segment
//! goes home.
#![tactic(auto)]

#[cfg(test)]
mod lots;
#[cfg(test)]
mod passes;
#[cfg(test)]
mod pipes;
#[cfg(test)]
mod tests;
