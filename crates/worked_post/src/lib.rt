//! Mailboxes between workers, used as workers use them. It stands on `post_table` and on segments,
//! and serves tests alone.
//!
//! Its one promise: a page waits in its mailbox until it is got, and until then no other can be put
//! there; and what a worker puts there page by page, another one gets once and in order.
#![tactic(auto)]

#[cfg(test)]
mod crossing;
pub mod crowd;
#[cfg(test)]
mod helpers;
pub mod label;
#[cfg(test)]
mod row;
pub mod tries;
