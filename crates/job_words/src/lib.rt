//! The words of the command lines: what they ask for. It stands on the words themselves, on decimal
//! numbers and on the form of names.
//!
//! Its one promise: `request_of` gives what the words of a program ask for, exactly where they have a form
//! of that program's. No text is copied.
#![tactic(auto)]

mod binding;
pub mod named_path;
pub mod program;
pub mod request;
