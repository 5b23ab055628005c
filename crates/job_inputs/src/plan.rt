ghost use Rattle.std.specs.Prelude.{◌≡◌, ℕ, ◌<◌, ◌≤◌, List, Ok, IfOk, IfErr, OnOk};
ghost use Rattle.flow_outside.specs.Files.{IfFileTold};
ghost use Rattle.flow_model.specs.Rules.{IsPlan};
ghost use Rattle.plan_text.specs.Told.{Tells};
ghost use Rattle.plan_check.specs.Checking.{◌>>then◌, checked};
ghost use Rattle.job_inputs.specs.Served.{built_tree, served};
ghost use Rattle.job_inputs.specs.PlanEnds.{EndsReadingPlan};

use crate::ops::first_unbuilt;
use flow_model::plan::Plan;
use flow_model::plan_code::PlanCode;
use flow_outside::read_file::{FileFault, read_file};
use flow_outside::shelf::Shelf;
use job_report::fault::Fault;
use job_words::program::Program;
use plan_check::check::check;
use plan_text::fault::PlanFault;
use plan_text::plan::read_plan;
use plan_text::tree::PlanTree;
use std::alloc::Global;

/// The most bytes of a plan's file.
const PLAN_LIMIT: usize = 1_048_576;

/// The plan in a file, as a program serves it, or its first fault: of its reading, of an op that isn't
/// built, of its checking. `ReadFault` comes with source 0, and only where the count of faults at the
/// file's name rose; after want of memory nothing is known. A plan that is given keeps the rules of plans.
///
/// The cost is that of reading the file, at most 1,048,576 bytes and a piece, and of reading and checking
/// the plan. The codes and their order are this project's own.
pub fn read_plan_file<S: Shelf>(
    alloc: Global,
    shelf: &mut S,
    program: Program,
    name: &str,
) -> Result<Plan, Fault>
    requires { S.living shelf.old < 80 }
    ensures tells { S.told shelf.new ≡ S.told shelf.old }
    ensures later { (k : List ℕ) → S.faults_at shelf.old k ≤ S.faults_at shelf.new k }
    ensures read { OnOk result (S.living shelf.new ≡ S.living shelf.old) }
    ensures served { IfOk result
        (λ plan. IfFileTold (S.told shelf.old) name.now (λ bytes. served program bytes ≡ Ok plan)) }
    ensures rules { IfOk result IsPlan }
    ensures refused { IfErr result
        (λ fault. EndsReadingPlan program (S.told shelf.old) name.now (S.faults_at shelf.old name.now)
        (S.faults_at shelf.new name.now) fault) }
{
    let bytes = match read_file(shelf, alloc, name, PLAN_LIMIT) {
        Ok(bytes) => bytes,
        Err(FileFault::Read) => return Err(Fault::ReadFault { source: 0 }),
        Err(FileFault::Memory) => return Err(Fault::Memory),
        Err(FileFault::TooLong) => return Err(refused(0, PlanCode::TooBig)),
    };
    match serve(alloc, program, bytes.as_slice()) {
        Ok(plan) => Ok(plan),
        Err(PlanFault::Memory) => Err(Fault::Memory),
        Err(PlanFault::Refused { node, code }) => Err(refused(node, code)),
    }
}

fn refused(node: u32, code: PlanCode) -> Fault
    ensures { result ≡ Fault.PlanRefused node code }
{
    Fault::PlanRefused { node, code }
}

/// The plan of bytes, as a program serves it, or its first fault.
fn serve(alloc: Global, program: Program, bytes: &[u8]) -> Result<Plan, PlanFault>
    ensures served { Tells result (served program bytes.now) }
    ensures rules { IfOk result IsPlan }
{
    match read_plan(alloc, bytes) {
        Ok(tree) => serve_tree(alloc, program, tree),
        Err(fault) => Err(fault),
    }
}

/// The plan of a tree, as a program serves it, or its first fault.
fn serve_tree(alloc: Global, program: Program, tree: PlanTree) -> Result<Plan, PlanFault>
    ensures { Tells result (built_tree program tree >>then λ u. checked u) }
{
    match first_unbuilt(program, tree.nodes.as_slice()) {
        Some(node) => Err(PlanFault::Refused {
            node,
            code: PlanCode::NotBuilt,
        }),
        None => check(alloc, tree),
    }
}
