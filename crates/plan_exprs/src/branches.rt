ghost use Rattle.std.specs.Prelude.{◌≡◌, IfOk, map};
ghost use Rattle.std.specs.List.{list_all};
ghost use Rattle.serde_json.specs.View.{view};
ghost use Rattle.plan_json.specs.Json.{seen, collected};
ghost use Rattle.plan_exprs.specs.Branches.{is_branch, branch_of, branches_in};

use crate::exprs::{limited_expr, limited_exprs};
use flow_model::op::{Branch, BranchList};
use flow_outside::failure::Memory;
use plan_json::json::list_in;
use plan_json::reading::{Flaw, Reading};
use plan_json::rows::{Form, has_only};
use serde_json::Value;
use sqlite_items::Items;
use std::alloc::Global;

/// A member that is a list of 1 to 8 branches of a flat map.
pub fn branches_in(alloc: Global, member: Option<&Value>) -> Result<Reading<BranchList>, Memory>
    ensures { IfOk result (λ rows. rows ≡ branches_in (seen member.entry)) }
{
    let Some(items) = list_in(member, 1, 8) else {
        return Ok(Err(Flaw::Node));
    };
    if !all_branches(items) {
        return Ok(Err(Flaw::Node));
    }
    Ok(branches_of(alloc, items)?.ok_or(Flaw::Expr))
}

/// Whether each value has a branch's form.
fn all_branches(values: &Vec<Value>) -> bool
    ensures { result ≡ list_all is_branch (map view values.now.items) }
{
    for value in values {
        if !is_branch(value) {
            return false;
        }
    }
    true
}

/// Whether a value has a branch's form, expressions aside.
fn is_branch(value: &Value) -> bool
    ensures { result ≡ is_branch (view value.now) }
{
    has_only(Form::Branch, value)
        && value.get("when").is_some()
        && list_in(value.get("columns"), 1, 32).is_some()
}

/// The branches that values are, where each is one.
fn branches_of(alloc: Global, values: &Vec<Value>) -> Result<Option<BranchList>, Memory>
    ensures { IfOk result (λ rows. rows ≡ collected branch_of (map view values.now.items)) }
{
    let mut branches = Vec::new(alloc);
    for value in values {
        let Some(branch) = branch_of(alloc, value)? else {
            return Ok(None);
        };
        if branches.push(branch).is_err() {
            return Err(Memory);
        }
    }
    Ok(Some(Items::from_vec(branches)))
}

fn branch_of(alloc: Global, value: &Value) -> Result<Option<Branch>, Memory>
    ensures { IfOk result (λ branch. branch ≡ branch_of (view value.now)) }
{
    let Some(when) = value.get("when") else {
        return Ok(None);
    };
    let Some(when) = limited_expr(alloc, when)? else {
        return Ok(None);
    };
    let Some(columns) = list_in(value.get("columns"), 1, 32) else {
        return Ok(None);
    };
    match limited_exprs(alloc, columns)? {
        None => Ok(None),
        Some(columns) => Ok(Some(Branch { when, columns })),
    }
}
