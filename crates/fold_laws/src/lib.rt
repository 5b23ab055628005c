//! Folds of a group's rows kept in parts, as Flink's DataSet API aggregates a group: a part stands for
//! some of the rows, and parts merge. It stands on `flow_types` for the folds' definitions and laws, and
//! takes no memory.
//!
//! Its one promise: in whatever order and grouping rows are added to parts and parts are merged, what is
//! finished is the fold's value over all rows. The functions of `laws` do nothing; their contracts say so
//! of the definitions that each fold's contract cites.
#![tactic(auto)]

pub mod agg_fold;
pub mod count;
pub mod extremes;
pub mod fold;
pub mod laws;
pub mod part;
pub mod sum;
