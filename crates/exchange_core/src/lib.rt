//! The exchange between workers as a machine of its own: for each ordered pair of workers one
//! mailbox that holds at most one page, and the two events that move it, Put and Got. No thread and
//! no clock is in it, so what holds here holds over every order of the workers' steps. It stands on
//! `flow_outside`, for the want of memory.
//!
//! Its one promise: over every list of events, what a worker received of another is a prefix of what
//! that one sent to it, at most one page behind, and the mailbox holds exactly the page between.
//!
//! A state keeps every page that was sent. So it serves to state the protocol and to try it, and the
//! crates that move pages in bulk show that they move them as it does.
#![tactic(auto)]

pub mod event;
pub mod fault;
pub mod laws;
mod outbox;
pub mod page;
mod page_log;
pub mod run;
pub mod state;
