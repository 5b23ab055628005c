ghost use Rattle.std.specs.Prelude.{◌≡◌, ◌≤◌, ◌+◌, ◌*◌, ◌/◌, if◌then◌else◌};
ghost use Rattle.flow_model.specs.Full.{solution_bytes};
ghost use Rattle.flow_model.specs.Segments.{has_delta, solution_minimum};
ghost use Rattle.flow_model.specs.Rules.{IsPlan};

use flow_model::plan::Plan;
use plan_need::need::{has_delta, solution_minimum, worker_minimum};

/// How many workers there are, and the bytes that each one's solution set has.
#[derive(Clone, Copy, Debug, PartialEq, Eq)]
pub struct Shares {
    pub workers: u32,
    pub have: u64,
}

/// The bytes that a worker's solution set has of a budget of segments, which may be below the minimum:
/// those of its segments but one.
pub fn solution_bytes(plan: &Plan, workers: u32, budget: u32) -> u64
    requires plan { IsPlan plan.now }
    requires least { 1 ≤ workers }
    requires most { workers ≤ 32 }
    ensures { result ≡ solution_bytes plan.now workers budget }
{
    let share = budget / workers;
    let extra = share.saturating_sub(worker_minimum(plan, workers));
    let segments = solution_part(plan, extra);
    bytes_of(segments.saturating_sub(1), plan.segment)
}

/// The segments of a worker's solution set, by those that it has above its least.
fn solution_part(plan: &Plan, extra: u32) -> u32
    requires { IsPlan plan.now }
    ensures { result ≡ (if has_delta plan.now.nodes then solution_minimum plan.now + extra / 3 else 0) }
{
    if has_delta(plan) {
        solution_minimum(plan) + extra / 3
    } else {
        0
    }
}

/// The bytes of segments of a size.
fn bytes_of(segments: u32, size: u32) -> u64
    ensures { result ≡ segments * size }
{
    u64::from(segments) * u64::from(size)
}
