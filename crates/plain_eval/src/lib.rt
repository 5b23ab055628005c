//! The plain program: it evaluates a whole plan over lists in memory, for tests and for what no
//! engine serves yet. It stands on the plans and the algebra of `flow_model`, and on its operations one
//! by one in `plain_ops`.
//!
//! Its one promise: `eval_rows` gives exactly the rows that the algebra gives of a plan's inputs, in
//! the algebra's order. It goes as the definitions go, and copies the rows at each node. What it does with
//! one node and with one state of a delta iteration can be called by itself.
#![tactic(auto)]

mod body;
pub mod delta;
pub mod env;
pub mod eval;
mod iterate;
pub mod state;
