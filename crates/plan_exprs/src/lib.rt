//! The expressions of a plan's JSON, and the members that hold them: literals, defaults, columns and the
//! branches of a flat map. It stands on the smaller forms of a plan's members.
//!
//! Its one promise: each reader gives exactly the value that the member's form in `specs/` gives, or
//! exactly its first flaw, memory aside.
#![tactic(auto)]

pub mod branches;
mod counted;
pub mod exprs;
pub mod literals;
