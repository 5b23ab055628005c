ghost use Rattle.std.specs.Prelude.{◌≡◌, IfOk};
ghost use Rattle.serde_json.specs.View.{view};
ghost use Rattle.plan_json.specs.Reading.{from_two};
ghost use Rattle.plan_text.specs.Nodes.{node_at, node_in, code_of, told_at};
ghost use Rattle.plan_text.specs.Told.{Tells};

use crate::fault::PlanFault;
use crate::ops::op_in;
use crate::tree::{TreeNode, TreeOp};
use flow_model::plan_code::PlanCode;
use flow_outside::failure::Memory;
use flow_types::name::Name;
use plan_json::names::name_in;
use plan_json::reading::{Flaw, Reading, both};
use plan_json::rows::{Form, has_only, op_name_of};
use serde_json::Value;
use std::alloc::Global;

/// The node of this number, or its first flaw as the plan's fault.
pub fn told_node(alloc: Global, number: u32, home: u32, node: &Value) -> Result<TreeNode, PlanFault>
    ensures { Tells result (told_at number (node_in number home (view node.now))) }
{
    match node_in(alloc, number, home, node) {
        Ok(Ok(node)) => Ok(node),
        Ok(Err(flaw)) => Err(PlanFault::Refused {
            node: number,
            code: code_of(flaw),
        }),
        Err(Memory) => Err(PlanFault::Memory),
    }
}

fn code_of(flaw: Flaw) -> PlanCode
    ensures { result ≡ code_of flaw }
{
    match flaw {
        Flaw::Node => PlanCode::BadNode,
        Flaw::Name => PlanCode::BadName,
        Flaw::Expr => PlanCode::BadExpr,
    }
}

/// The node of this number, in the body of the iteration `home` or in the outer list.
fn node_in(alloc: Global, number: u32, home: u32, node: &Value) -> Result<Reading<TreeNode>, Memory>
    ensures { IfOk result (λ made. made ≡ node_in number home (view node.now)) }
{
    let Some(op) = op_name_of(node) else {
        return Ok(Err(Flaw::Node));
    };
    if !has_only(Form::Node(op), node) {
        return Ok(Err(Flaw::Node));
    }
    let name = name_in(alloc, node.get("name"))?;
    let op = op_in(alloc, op, node)?;
    Ok(node_of(number, home, name, op))
}

fn node_of(number: u32, home: u32, name: Reading<Name>, op: Reading<TreeOp>) -> Reading<TreeNode>
    ensures { result ≡ from_two (node_at number home) name op }
{
    let (name, op) = both(name, op)?;
    Ok(TreeNode {
        number,
        name,
        home,
        op,
    })
}
