//! Operations that go row by row, over lots: map, filter, flat map, and each input of a union. A row is read
//! where it lies, and what is given of it goes behind the rows of another lot. It stands on expressions in
//! place and on lots.
//!
//! Its one promise: `pipe` adds to a lot exactly the rows that the operation gives of another lot's rows, in
//! order, and takes no memory.
#![tactic(auto)]

mod copies;
mod give;
pub mod laws;
pub mod pipe;
pub mod row_pipe;
pub mod work;
