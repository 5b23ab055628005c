//! The operations of the algebra, one by one, over lists of rows in memory: expressions, folds, joins,
//! groups, and the solutions of delta iterations. It stands on the definitions of `flow_model`.
//!
//! Its one promise: each operation gives exactly the definition's list, in its order. It goes as the
//! definitions go, but where they speak of the rows with a key it finds them in an index, so that the
//! cost is about n log n comparisons and what is made.
#![tactic(auto)]

mod cut;
mod folds;
pub mod groups;
pub mod held;
pub mod join;
mod key_index;
mod keys;
pub mod lists;
mod rank;
pub mod row_ops;
pub mod solutions;
mod value_of;
mod values;
