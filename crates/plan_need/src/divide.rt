ghost use Rattle.std.specs.Prelude.{◌≡◌, ◌≤◌, ◌<◌, ◌↔◌, ◌+◌, ◌*◌, ◌/◌, ℕ, IfOk, IsErr, if◌then◌else◌};
ghost use Rattle.flow_model.specs.Segments.{minimum, reach, has_delta, solution_minimum};
ghost use Rattle.flow_model.specs.Rules.{IsPlan};
ghost use Rattle.plan_need.specs.Allotments.{allotment};
ghost use Rattle.plan_need.specs.declared.budget.TooSmall.{TooSmall};

use crate::budget::{Allot, TooSmall};
use crate::need::{exchange_part, has_delta, minimum, solution_minimum, worker_minimum};
use flow_model::plan::Plan;

/// Divides a budget of at most 65,536 segments among 1 to 32 workers; `TooSmall` exactly where it is
/// below the plan's minimum. Each worker's work has at least its minimum, and all shares together are
/// within the budget.
pub fn allot(plan: &Plan, w: u32, budget: u32) -> Result<Allot, TooSmall>
    requires plan { IsPlan plan.now }
    requires least { 1 ≤ w }
    requires most { w ≤ 32 }
    requires budget { budget ≤ 65_536 }
    ensures small { IsErr result ↔ (budget < minimum plan.now w) }
    ensures told { (fault : TooSmall) → result ≡ Err fault → fault ≡ record { need = minimum plan.now w; have = budget } }
    ensures parts { IfOk result (λ parts. parts ≡ allotment plan.now w budget) }
    ensures enough { IfOk result
        (λ parts. (8 + 4 * reach plan.now ≤ parts.work) × (w * parts.share ≤ budget)) }
{
    let need = minimum(plan, w);
    let have = u64::from(budget);
    if have < need {
        return Err(TooSmall { need, have });
    }
    let share = budget / w;
    let extra = share - worker_minimum(plan, w);
    let exchange = exchange_part(w);
    let cache = extra / 3;
    let solution = solution_part(plan, extra);
    Ok(Allot {
        workers: w,
        segment: plan.segment,
        total: budget,
        share,
        exchange,
        solution,
        cache,
        work: share - exchange - solution - cache,
    })
}

/// The segments of a worker's solution set, by those that it has above its least.
fn solution_part(plan: &Plan, extra: u32) -> u32
    requires plan { IsPlan plan.now }
    requires extra { extra ≤ 65_536 }
    ensures number { result ≡ (if has_delta plan.now.nodes then solution_minimum plan.now + extra / 3 else 0) }
    ensures bound { result ≤ solution_minimum plan.now + extra / 3 }
{
    if has_delta(plan) {
        solution_minimum(plan) + extra / 3
    } else {
        0
    }
}
