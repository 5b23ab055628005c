//! The dataset algebra, as in Flink's DataSet API, and the plans that it gives a meaning to. It
//! stands on values, tuples and expressions.
//!
//! Its one promise: `eval` of `specs/Algebra.antt` is what a plan gives of its inputs, and the plan's
//! types are those that it speaks of. It evaluates nothing: a program that does stands on it.
#![tactic(auto)]

pub mod made;
pub mod op;
pub mod plan;
pub mod plan_code;
pub mod rows;
