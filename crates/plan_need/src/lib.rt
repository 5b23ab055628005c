//! The numbers of a budget: how many segments a plan needs, and how a budget is divided among the
//! parts of a worker. It stands on the plan and its definitions.
//!
//! Its one promise: `minimum` and `allot` give exactly the definitions' numbers, and a budget is too
//! small exactly where it is below the minimum.
#![tactic(auto)]

pub mod budget;
pub mod divide;
pub mod need;
pub mod worked;
