use thiserror::Error;

/// Why no rows were read.
#[derive(Clone, Copy, Debug, PartialEq, Eq, Error)]
pub enum InputFault {
    /// Want of memory.
    #[error("out of memory")]
    Memory,
    /// The input isn't of a form that is served yet.
    #[error("the input isn't of a form that is served")]
    NotBuilt,
}
