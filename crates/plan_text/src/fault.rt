use flow_model::plan_code::PlanCode;
use thiserror::Error;

/// Why a plan's text gave no tree.
#[derive(Clone, Copy, Debug, PartialEq, Eq, Error)]
pub enum PlanFault {
    #[error("out of memory")]
    Memory,
    /// The first fault of the plan's reading: its code, at the node of this number, where 0 is the plan
    /// itself.
    #[error("plan refused")]
    Refused { node: u32, code: PlanCode },
}
