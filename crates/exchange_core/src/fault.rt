use thiserror::Error;

/// Why an event changed nothing.
#[derive(Clone, Copy, Debug, PartialEq, Eq, Error)]
pub enum StepFault {
    /// Want of memory.
    #[error("out of memory")]
    Memory,
    /// A Put found its mailbox full, or a Got found it empty.
    #[error("the mailbox is not ready for this event")]
    NotNow,
}

/// Why a run of events came to no state.
#[derive(Clone, Copy, Debug, PartialEq, Eq, Error)]
pub enum RunFault {
    /// Want of memory.
    #[error("out of memory")]
    Memory,
    /// The first event that finds its mailbox not ready stands at this place, counted from 0.
    #[error("the mailbox is not ready for the event at place {place}")]
    NotNow { place: u64 },
}
