//! Keys of records hashed, and records compared by keys and prefixes, each in one piece and in several. It holds
//! nothing but tests.
#![tactic(auto)]

#[cfg(test)]
mod hashes;
#[cfg(test)]
mod keys;
