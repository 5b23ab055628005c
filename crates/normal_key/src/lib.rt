//! The order of records by a key, then by the items of an order, and then perhaps by the whole row, on the
//! records' bytes where they lie, with a normalized prefix of 16 bytes that is compared first. It stands on
//! `flow_types` for schemas and bytes in pieces, on `record_codec` for the places of fields, and on
//! `paged_view` for the trait of orders. It takes no memory.
//!
//! Its one promise: records compare exactly as the rows that they are read as, and where one record's prefix
//! is smaller, byte by byte, that record stands first.
#![tactic(auto)]

mod compare;
pub mod key_order;
pub mod laws;
mod prefix;
mod write;
