use crate::rows::Rows;

/// The rows of a node that was evaluated, under the node's number.
#[derive(Debug, Drop)]
pub struct Made {
    pub number: u32,
    pub rows: Rows,
}
