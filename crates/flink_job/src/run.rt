ghost use Rattle.std.specs.Prelude.{◌≡◌, ◌<◌, ◌≤◌, IsTrue, [], option_map};
ghost use Rattle.flow_model.specs.Rules.{IsPlan};
ghost use Rattle.job_words.specs.Words.{IsInLimits, IsWithin};
ghost use Rattle.job_words.specs.Requests.{asked, all_bound, budgeted};
ghost use Rattle.flink_job.specs.Stops.{EndsStopped, EndsRun, EndsByBudget, IsStoppedBy};

use crate::print::{print_check, print_need, print_result};
use flow_model::plan::Plan;
use flow_outside::failure::Memory;
use flow_outside::shelf::Shelf;
use flow_outside::sink::Sink;
use job_inputs::inputs::{Stopped, read_inputs};
use job_inputs::plan::read_plan_file;
use job_inputs::sources::unbound_name;
use job_report::fault::Fault;
use job_words::named_path::NamedPath;
use job_words::program::Program;
use job_words::request::{Request, RequestTask, RunBudget};
use plan_need::need::minimum;
use std::alloc::Global;

/// Does what was asked for; `None` where its text was written.
pub fn run_request<'w, S: Shelf, K: Sink>(
    alloc: Global,
    program: Program,
    request: &Request<'w>,
    shelf: &mut S,
    out: &mut K,
) -> Option<Stopped<'w>>
    requires living { S.living shelf.old ≡ 0 }
    requires limits { IsWithin (asked request.now).task }
    ensures { EndsStopped program
        (record { told = S.told shelf.old; before = S.faults_at shelf.old; after = S.faults_at shelf.new; living = S.living shelf.new })
        (record { old = K.told out.old; new = K.told out.new; before = K.fault_count out.old; after = K.fault_count out.new })
        (asked request.now) result }
{
    let plan = match read_plan_file(alloc, shelf, program, request.plan) {
        Ok(plan) => plan,
        Err(fault) => return Some(unnamed(fault)),
    };
    match &request.task {
        RequestTask::Check => stopped_by(print_check(&plan, out)),
        RequestTask::Need { workers } => stopped_by(print_need(&plan, *workers, out)),
        RequestTask::Run { budget, bindings } => {
            run_plan(alloc, &plan, *budget, bindings.as_slice(), shelf, out)
        }
    }
}

/// Runs a plan over the files that its sources are bound to; `None` where the result's text was written.
fn run_plan<'w, S: Shelf, K: Sink>(
    alloc: Global,
    plan: &Plan,
    budget: Option<RunBudget>,
    bindings: &[NamedPath<'w>],
    shelf: &mut S,
    out: &mut K,
) -> Option<Stopped<'w>>
    requires living { S.living shelf.old ≡ 0 }
    requires plan { IsPlan plan.now }
    requires limits { IsInLimits (option_map budgeted budget) }
    ensures { EndsRun (S.told shelf.old) (S.faults_at shelf.old) (S.faults_at shelf.new) (S.living shelf.new)
        (record { old = K.told out.old; new = K.told out.new; before = K.fault_count out.old; after = K.fault_count out.new })
        plan.now (option_map budgeted budget) (all_bound bindings.now) result }
{
    match unbound_name(alloc, bindings, plan) {
        Ok(None) => {}
        Ok(Some(name)) => return Some(unnamed(Fault::Unbound { name })),
        Err(Memory) => return Some(unnamed(Fault::Memory)),
    }
    if let Some(fault) = too_small(plan, budget) {
        return Some(unnamed(fault));
    }
    match read_inputs(alloc, shelf, bindings, plan) {
        Ok(inputs) => stopped_by(print_result(alloc, plan, &inputs, out)),
        Err(stopped) => Some(stopped),
    }
}

/// A fault that is no source's.
pub fn unnamed<'w>(fault: Fault) -> Stopped<'w>
    ensures fault { result.fault ≡ fault }
    ensures name { result.name.now ≡ [] }
{
    Stopped { fault, name: "" }
}

/// What stopped where a fault did that is no source's, if one did.
fn stopped_by<'w>(fault: Option<Fault>) -> Option<Stopped<'w>>
    ensures { IsStoppedBy fault result }
{
    match fault {
        None => None,
        Some(fault) => Some(unnamed(fault)),
    }
}

/// Why a budget is too small for a plan, if it is.
fn too_small(plan: &Plan, budget: Option<RunBudget>) -> Option<Fault>
    requires plan { IsPlan plan.now }
    requires limits { IsInLimits (option_map budgeted budget) }
    ensures { EndsByBudget plan.now (option_map budgeted budget) result }
{
    let budget = budget?;
    let need = minimum(plan, budget.workers);
    let have = u64::from(budget.segments);
    if have < need {
        return Some(Fault::TooSmall { need, have });
    }
    None
}
