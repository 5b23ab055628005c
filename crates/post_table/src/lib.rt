//! The post table: one live mailbox for each ordered pair of workers, over the words and slots of
//! `atomic_table`. It stands on segments, which it holds, and on the exchange machine, which it shows.
//!
//! Its one promise: over every order of the workers' atomic steps each mailbox is a lane of the exchange
//! machine, and every segment that went in is in a slot or was given back.
#![tactic(auto)]

pub mod laws;
mod lists;
mod moving;
mod opening;
mod pairs;
mod parting;
mod plays;
pub mod post;
mod rule;
pub mod seats;
mod steps;
pub mod view;
