//! Records over pages: a writer that fills the bodies of segments with framed records and gives the
//! pages out, a reader that is given pages and lends the records in place, and what streams and orders
//! of records are. It stands on segments, on the bytes of records and on the traits of the outside.
//!
//! Its one promise: the records that are read are the records that were appended, in order, whole
//! records across any number of pages included, and no call takes memory or loses a segment.
#![tactic(auto)]

pub mod fill;
pub mod laws;
pub mod need_page;
pub mod order;
pub mod page;
pub mod reader;
pub mod record_ref;
pub mod share;
pub mod stream;
pub mod writer;
