//! Plans as text: the JSON of a plan is read into a tree, or its first reading fault is named. It
//! stands on the forms of a plan's members and on JSON as `serde_json` reads it.
//!
//! Its one promise: `read_plan` gives exactly the tree or exactly the first fault that `plan_of` of
//! `specs/Plans.antt` gives of the bytes, memory aside.
#![tactic(auto)]

pub mod fault;
mod nodes;
mod numbering;
mod ops;
pub mod plan;
pub mod tree;
