ghost use Rattle.std.specs.Prelude.{◌≡◌, ◌≤◌, ◌<◌, IsTrue};
ghost use Rattle.flow_types.specs.Limits.{record_limit};
ghost use Rattle.flow_model.specs.Segments.{widest_record, reach, has_delta, exchange_part, work_minimum, solution_minimum, worker_minimum, minimum};
ghost use Rattle.flow_model.specs.Rules.{IsPlan};

use flow_model::op::Op;
use flow_model::plan::{Node, Plan};

/// The least segments of a plan on 1 to 32 workers: at most 3,264, which a plan with a delta iteration
/// and records of 16,384 bytes in segments of 4,096 needs on 32 workers.
pub fn minimum(plan: &Plan, w: u32) -> u64
    requires plan { IsPlan plan.now }
    requires least { 1 ≤ w }
    requires most { w ≤ 32 }
    ensures number { result ≡ minimum plan.now w }
    ensures bound { result ≤ 3_264 }
{
    u64::from(w) * u64::from(worker_minimum(plan, w))
}

/// The least segments of one worker.
pub fn worker_minimum(plan: &Plan, w: u32) -> u32
    requires plan { IsPlan plan.now }
    requires least { 1 ≤ w }
    requires most { w ≤ 32 }
    ensures number { result ≡ worker_minimum plan.now w }
    ensures bound { result ≤ 102 }
{
    exchange_part(w) + work_minimum(plan) + solution_minimum(plan)
}

/// The segments of a worker's exchange.
pub fn exchange_part(w: u32) -> u32
    requires least { 1 ≤ w }
    requires most { w ≤ 32 }
    ensures number { result ≡ exchange_part w }
    ensures bound { result ≤ 63 }
{
    if w == 1 { 0 } else { 2 * (w - 1) + 1 }
}

/// The least segments of a worker's work.
fn work_minimum(plan: &Plan) -> u32
    requires { IsPlan plan.now }
    ensures number { result ≡ work_minimum plan.now }
    ensures bound { result ≤ 32 }
{
    8 + 4 * reach(plan)
}

/// The least segments of a worker's solution set; none where the plan has no delta iteration.
pub fn solution_minimum(plan: &Plan) -> u32
    requires { IsPlan plan.now }
    ensures number { result ≡ solution_minimum plan.now }
    ensures bound { result ≤ 7 }
{
    if has_delta(plan) { 1 + reach(plan) } else { 0 }
}

/// The most pages that a record behind its length can touch.
pub fn reach(plan: &Plan) -> u32
    requires { IsPlan plan.now }
    ensures number { result ≡ reach plan.now }
    ensures bound { result ≤ 6 }
{
    (widest_record(plan) + 4).div_ceil(plan.segment - 16) + 1
}

/// The bytes of the widest record of a plan's nodes.
pub fn widest_record(plan: &Plan) -> u32
    ensures number { result ≡ widest_record plan.now }
    ensures bound { result ≤ record_limit }
{
    let mut most = 0;
    for node in plan.nodes.as_slice() {
        most = most.max(node.schema.max_bytes());
    }
    most
}

/// Whether a plan has a delta iteration.
pub fn has_delta(plan: &Plan) -> bool
    ensures { result ≡ has_delta plan.now.nodes }
{
    any_delta(plan.nodes.as_slice())
}

fn any_delta(nodes: &[Node]) -> bool
    ensures { result ≡ has_delta nodes.now }
{
    nodes.iter().any(|node| matches!(node.op, Op::Delta { .. }))
}
