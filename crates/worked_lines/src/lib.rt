//! Lines that are read into rows and records, rows that are written as lines, and rows that are packed. It stands on
//! `delim_io` and `packed_rows`, and holds nothing but tests.
//!
//! Its one promise: what is read and written is what the tables say, byte for byte.
#![tactic(auto)]

#[cfg(test)]
mod packed;
#[cfg(test)]
mod reader;
#[cfg(test)]
mod records;
#[cfg(test)]
mod tests;
