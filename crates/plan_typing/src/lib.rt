//! The types of a plan's operations: the schema of an op's rows by those of the rows that it takes. It
//! stands on the plan's types and definitions.
//!
//! Its one promise: `type_op` gives that schema, or exactly the first of the codes `BadField`,
//! `BadTypes` and `BadWidth` that refuses the op. Beside it, `fits_schema` says whether the rows of one
//! schema fit another.
#![tactic(auto)]

mod columns;
mod expr_type;
pub mod fit;
mod keys;
mod op_types;
pub mod ops;
mod schemas;
mod widen;
mod within;
