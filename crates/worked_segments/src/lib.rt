//! A pool and its purses: sizes and counts that are refused, segments that go out and come home. It
//! stands on `segment_core`, and holds nothing but tests.
//!
//! Its one promise: what is refused is refused with its cause, and what was leased comes home.
#![tactic(auto)]

#[cfg(test)]
mod tests;
