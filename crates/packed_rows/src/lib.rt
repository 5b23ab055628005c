//! Rows of one schema as records in one vector: they are added, filtered in place, and decoded only to
//! be ordered or printed. It stands on `record_codec` for records and on `flow_types` for rows.
//!
//! Its one promise: the rows that the bytes are read as are those that were added and not filtered out,
//! in their order.
#![tactic(auto)]

mod frame;
pub mod laws;
pub mod rows;
