//! Records in bytes: rows are written as records, bytes are tested to be the record of a row, and
//! their fields are read where they lie. It stands on `flow_types` for values, schemas and bytes in
//! pieces, and on the type for want of memory.
//!
//! Its one promise: `check_bytes` is true exactly for the records of the rows of a schema, and of
//! such bytes each field and the whole row are read as they were written.
#![tactic(auto)]

pub mod check;
pub mod decode;
pub mod encode;
pub mod laws;
pub mod number;
pub mod place;
mod utf8;
