//! Rows written as records, tested and read, and records carried over pages. It holds nothing but tests, a
//! small stream and a small order, which meet their traits.
#![tactic(auto)]

#[cfg(test)]
mod codec;
#[cfg(test)]
mod pages;
#[cfg(test)]
mod samples;
