use delim_io::input_kind::InputKind;
use flow_model::plan_code::PlanCode;
use flow_types::name::Name;

/// Why a run ended without printing all. Sources are told by their node numbers.
#[derive(Debug, Drop)]
pub enum Fault {
    /// The words have no form that is served.
    Usage,
    /// The plan is refused, at this node; 0 is the plan itself.
    PlanRefused {
        node: u32,
        code: PlanCode,
    },
    /// A source's input is refused, at this line from 1 and this field from 0.
    InputRefused {
        source: u32,
        line: u64,
        field: u32,
        kind: InputKind,
    },
    /// A file couldn't be read: the plan's where the source is 0, else that source's.
    ReadFault {
        source: u32,
    },
    /// The output failed.
    WriteFault,
    /// Want of memory.
    Memory,
    /// The budget is below what the plan needs, in segments.
    TooSmall {
        need: u64,
        have: u64,
    },
    /// A source isn't bound to a file, or a word binds no source or one a second time.
    Unbound {
        name: Name,
    },
    /// The disk of this worker failed.
    SpillFault {
        worker: u32,
    },
    /// The page in this block of the worker's disk isn't one that was written.
    Damaged {
        worker: u32,
        block: u64,
    },
    /// The records of a worker's solution set exceed its segments, in bytes, at this delta node and superstep.
    SolutionFull {
        node: u32,
        step: u64,
        worker: u32,
        need: u64,
        have: u64,
    },
}
