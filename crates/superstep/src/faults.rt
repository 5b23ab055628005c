//! Why a call of an engine ended early.
use delim_io::input_kind::InputKind;
use thiserror::Error;

/// Why an input wasn't loaded.
#[derive(Clone, Copy, Debug, PartialEq, Eq, Error)]
pub enum LoadFault {
    /// Want of memory.
    #[error("out of memory")]
    Memory,
    /// The shelf failed: its count at the reader's name rose in this call.
    #[error("the input can't be read")]
    Read,
    /// The disk of this worker failed: its count rose in this call.
    #[error("the spill device of worker {worker} failed")]
    Spill {
        worker: u32,
    },
    /// The input isn't of its form: the first line, field and kind of fault.
    #[error("the input isn't of a form that is served")]
    Input {
        line: u64,
        field: u32,
        kind: InputKind,
    },
}

/// Why the result wasn't made. There is no answer for want of memory.
#[derive(Clone, Copy, Debug, PartialEq, Eq, Error)]
pub enum ExecFault {
    /// The disk of this worker failed: its count rose in this call.
    #[error("the spill device of worker {worker} failed")]
    Spill {
        worker: u32,
    },
    /// The page in this block of the worker's disk isn't one that was written, or has no rows of
    /// its schema. Only over a disk that doesn't tell.
    #[error("block {block} of worker {worker} is damaged")]
    Damaged {
        worker: u32,
        block: u64,
    },
    /// A solution set's records exceed its segments.
    #[error("a solution set of {need} bytes exceeds {have}")]
    SolutionFull {
        node: u32,
        step: u64,
        worker: u32,
        need: u64,
        have: u64,
    },
}

/// Why the result wasn't printed whole.
#[derive(Clone, Copy, Debug, PartialEq, Eq, Error)]
pub enum EmitFault {
    /// Want of memory.
    #[error("out of memory")]
    Memory,
    /// The disk of this worker failed: its count rose in this call. Nothing was written.
    #[error("the spill device of worker {worker} failed")]
    Spill { worker: u32 },
    /// The page in this block of the worker's disk isn't one that was written, or has no rows of
    /// the result's schema. Only over a disk that doesn't tell. Nothing was written.
    #[error("block {block} of worker {worker} is damaged")]
    Damaged { worker: u32, block: u64 },
    /// The output failed: its count rose in this call.
    #[error("the output failed")]
    Write,
}

/// The disks that an engine was to have, which couldn't be opened for want of memory.
pub struct OpenMemory<D> {
    pub disks: Vec<D>,
}
