ghost use Rattle.std.specs.Prelude.{◌≡◌, IfOk, map, option_map, option_and_then, is_some};
ghost use Rattle.serde_json.specs.View.{view};
ghost use Rattle.plan_json.specs.Json.{seen};
ghost use Rattle.plan_json.specs.Names.{name_of};
ghost use Rattle.plan_json.specs.Numbers.{number_of};
ghost use Rattle.flow_model.specs.Rules.{is_segment_size};
ghost use Rattle.plan_text.specs.Plans.{segment_in, nodes_in, outlined, outline_of, plan_of};
ghost use Rattle.plan_text.specs.Told.{Tells};

use crate::fault::PlanFault;
use crate::numbering::{has_too_many, read_nodes};
use crate::tree::PlanTree;
use flow_model::plan_code::PlanCode;
use flow_outside::failure::Memory;
use flow_types::name::Name;
use plan_json::json::items_in;
use plan_json::names::name_of;
use plan_json::numbers::number_of;
use plan_json::rows::{Form, has_only};
use serde_json::Value;
use std::alloc::Global;

/// The most bytes of a plan.
const BYTE_LIMIT: usize = 1_048_576;

/// The tree of a plan's bytes, or the first fault of its reading, as `plan_of` has it. After want of
/// memory nothing is known.
pub fn read_plan(alloc: Global, bytes: &[u8]) -> Result<PlanTree, PlanFault>
    ensures { Tells result (plan_of bytes.now) }
{
    if bytes.len() > BYTE_LIMIT {
        return Err(refused(PlanCode::TooBig));
    }
    match Value::from_slice(alloc, bytes) {
        Ok(plan) => read_tree(alloc, &plan),
        Err(error) if error.is_memory() => Err(PlanFault::Memory),
        Err(_) => Err(refused(PlanCode::BadJson)),
    }
}

/// A fault of the plan itself.
fn refused(code: PlanCode) -> PlanFault
    ensures { result ≡ PlanFault.Refused 0 code }
{
    PlanFault::Refused { node: 0, code }
}

/// The tree of a plan's JSON, or its first fault.
fn read_tree(alloc: Global, plan: &Value) -> Result<PlanTree, PlanFault>
    ensures { Tells result (outlined (outline_of (view plan.now))) }
{
    let Some(segment) = segment_in(plan.get("segment")) else {
        return Err(refused(PlanCode::BadPlan));
    };
    let Some(items) = nodes_in(plan.get("nodes")) else {
        return Err(refused(PlanCode::BadPlan));
    };
    let result = match result_in(alloc, plan.get("result")) {
        Ok(Some(result)) => result,
        Ok(None) => return Err(refused(PlanCode::BadPlan)),
        Err(Memory) => return Err(PlanFault::Memory),
    };
    if !has_only(Form::Plan, plan) || !is_first_version(plan.get("version")) {
        return Err(refused(PlanCode::BadPlan));
    }
    if has_too_many(items.as_slice()) {
        return Err(refused(PlanCode::TooMany));
    }
    let nodes = read_nodes(alloc, items.as_slice())?;
    Ok(PlanTree {
        segment,
        nodes,
        result,
    })
}

/// The member `segment`, the bytes of a segment; 32,768 where it is absent.
fn segment_in(member: Option<&Value>) -> Option<u32>
    ensures { result ≡ segment_in (seen member.entry) }
{
    match member {
        None => Some(32_768),
        Some(value) => {
            let size = number_of(value, 4096, 32_768)?;
            if is_segment_size(size) {
                Some(size)
            } else {
                None
            }
        }
    }
}

fn is_segment_size(size: u32) -> bool
    ensures { result ≡ is_segment_size size }
{
    size == 4096 || size == 8192 || size == 16_384 || size == 32_768
}

/// The member `nodes`, of at least one node.
fn nodes_in(member: Option<&Value>) -> Option<&Vec<Value>>
    ensures { option_map (λ items. map view items.now.items) result ≡ nodes_in (seen member.entry) }
{
    let items = items_in(member?)?;
    if items.is_empty() { None } else { Some(items) }
}

/// The member `result`, the name of a node.
fn result_in(alloc: Global, member: Option<&Value>) -> Result<Option<Name>, Memory>
    ensures { IfOk result (λ name. name ≡ option_and_then name_of (seen member.entry)) }
{
    match member {
        None => Ok(None),
        Some(value) => name_of(alloc, value),
    }
}

/// Whether the member `version` is the number 1.
fn is_first_version(member: Option<&Value>) -> bool
    ensures { result ≡ is_some (option_and_then (number_of 1 1) (seen member.entry)) }
{
    match member {
        None => false,
        Some(value) => number_of(value, 1, 1).is_some(),
    }
}
