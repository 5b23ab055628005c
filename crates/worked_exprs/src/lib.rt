//! Expressions evaluated on records, and folds in parts. It holds nothing but tests.
#![tactic(auto)]

#[cfg(test)]
mod exprs;
#[cfg(test)]
mod folds;
#[cfg(test)]
mod known;
