//! Expressions over record bytes: an expression is evaluated on one record, or on two that are joined,
//! where they lie, and columns become the bytes of a new record. It stands on `record_codec` for the
//! places of fields, and on `flow_types` for expressions and schemas.
//!
//! Its one promise: `test` gives the expression's value at the tuple that the record is read as, and
//! `columns_into` the record of the columns' values; neither takes memory.
#![tactic(auto)]

mod columns;
mod eval;
pub mod evaluate;
pub mod laws;
mod operation;
pub mod scratch;
mod seen;
mod source;
mod text;
