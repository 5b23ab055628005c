//! Mailboxes between workers: single steps, a run that stops, pages that stay. It stands on
//! `exchange_core`, and holds nothing but tests.
//!
//! Its one promise: each step moves the one lane that it names, as the tables say.
#![tactic(auto)]

#[cfg(test)]
mod tests;
