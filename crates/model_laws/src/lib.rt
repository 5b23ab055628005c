//! Laws of the dataset algebra: what follows of its definitions. It stands on `flow_model` and
//! `flow_types`, and adds no definition that they need, so that whoever stands on the definitions
//! alone isn't checked again when a law changes.
//!
//! Its one promise: each law that is stated is proved. The functions of `parts`, `same_bags` and
//! `schemas` do nothing; their contracts are the laws. Those of `held` walk over a plan, and say of
//! it what a law wants to know.
#![tactic(auto)]

pub mod held;
pub mod parts;
pub mod same_bags;
pub mod schemas;
