//! The hash of a record's key, taken from the record's bytes where they lie: rows go by it to workers, to
//! partitions and to tables. It stands on `flow_types` for schemas, bytes in pieces and the hash's
//! definition, and on `record_codec` for the places of fields.
//!
//! Its one promise: `part` and `bucket` are exactly the definitions' numbers for the key of the tuple that
//! the record is read as, so rows with equal keys get equal numbers.
#![tactic(auto)]

mod fields;
pub mod fnv;
pub mod hash;
