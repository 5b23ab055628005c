//! Lines of text and rows: inputs are read into rows, and rows are written as lines, by the rules
//! of `csv`. It stands on `flow_types` for rows, on `record_codec` for records in place and on `flow_outside`
//! for shelves and sinks.
//!
//! Its one promise: what is read is what an input's form says, or the input isn't of that form, and
//! what is written is exactly the rows' lines, or the first bytes of them where a call failed.
#![tactic(auto)]

mod cut;
mod field;
pub mod first_form;
pub mod input_fault;
pub mod input_kind;
pub mod line_reader;
pub mod line_record;
pub mod plain_line;
pub mod result_text;
pub mod row_writer;
