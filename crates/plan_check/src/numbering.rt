ghost use Rattle.std.specs.Prelude.{◌≡◌, true, IfOk, map, option_map};
ghost use Rattle.plan_check.specs.Places.{is_seen_at, is_seen_at_end, number_of};
ghost use Rattle.plan_check.specs.Numbering.{numbered, bare_node};
ghost use Rattle.plan_check.specs.Shapes.{is_by_row, is_by_key, is_pair};
ghost use Rattle.plan_check.specs.Trees.{has_bind};

use crate::names::Names;
use flow_model::op::{NumberList, Op};
use flow_outside::failure::Memory;
use flow_types::name::Name;
use plan_json::names::NameList;
use plan_text::tree::{TreeNode, TreeOp};
use sqlite_items::Items;
use std::alloc::Global;
use std::marker::Model;

/// A node whose names are numbers, seen as a node without schemas.
#[derive(Debug, Drop)]
pub struct BareNode {
    pub number: u32,
    pub name: Name,
    pub home: u32,
    pub op: Op,
}

impl Model for BareNode {
    ghost use Rattle.std.specs.Prelude.{[]};
    ghost use Rattle.std.specs.Coded.{codes};
    ghost use Rattle.flow_types.specs.contracts.expr.Expr as expr;
    ghost use Rattle.flow_model.specs.declared.plan.Node.{Node};

    ghost Value = { Node };

    ghost coded = { Prim.hlevel (codes, expr.the_row.coded) };

    ghost view = { λ b. record {
      number = b.number;
      name = b.name;
      home = b.home;
      op = b.op;
      inputs = [];
      schema = [];
    } };
}

/// A node of a plan with these names. Its lists are moved, and nothing is copied.
pub fn bare_node(alloc: Global, names: &Names, node: TreeNode) -> Result<BareNode, Memory>
    ensures { IfOk result (λ bare. bare ≡ bare_node names.now node) }
{
    let TreeNode {
        number,
        name,
        home,
        op,
    } = node;
    let op = numbered(alloc, names, number, home, op)?;
    Ok(BareNode {
        number,
        name,
        home,
        op,
    })
}

/// The op with numbers in the place of the names that it refers to, where it stands at a node of this
/// number in the body of `home`, or in the outer list at home 0.
fn numbered(alloc: Global, names: &Names, number: u32, home: u32, op: TreeOp) -> Result<Op, Memory>
    ensures { IfOk result (λ made. made ≡ numbered (number_of names.now (is_seen_at number home)) (number_of names.now (is_seen_at_end number)) op) }
{
    match op {
        TreeOp::Source { fields, delimiter } => Ok(Op::Source { fields, delimiter }),
        TreeOp::Union { inputs } => numbered_union(alloc, names, number, home, &inputs),
        TreeOp::Map { .. }
        | TreeOp::Filter { .. }
        | TreeOp::FlatMap { .. }
        | TreeOp::Probe { .. } => Ok(numbered_by_row(names, number, home, op)),
        TreeOp::Distinct { .. } | TreeOp::Group { .. } | TreeOp::Top { .. } => {
            Ok(numbered_by_key(names, number, home, op))
        }
        TreeOp::Join { .. } | TreeOp::Cogroup { .. } => Ok(numbered_pair(names, number, home, op)),
        TreeOp::Bulk { .. } | TreeOp::Delta { .. } => {
            Ok(numbered_iteration(names, number, home, op))
        }
    }
}

/// The same of an op that takes the rows of its input one by one.
fn numbered_by_row(names: &Names, number: u32, home: u32, op: TreeOp) -> Op
    requires { is_by_row op ≡ true }
    ensures { result ≡ numbered (number_of names.now (is_seen_at number home)) (number_of names.now (is_seen_at_end number)) op }
{
    match op {
        TreeOp::Map { input, columns } => Op::Map {
            input: names.number_at(number, home, &input),
            columns,
        },
        TreeOp::Filter { input, test } => Op::Filter {
            input: names.number_at(number, home, &input),
            test,
        },
        TreeOp::FlatMap { input, rows } => Op::FlatMap {
            input: names.number_at(number, home, &input),
            rows,
        },
        TreeOp::Probe {
            input,
            key,
            columns,
        } => Op::Probe {
            input: names.number_at(number, home, &input),
            key,
            columns,
        },
        _ => unreachable!(),
    }
}

/// The same of an op on the rows of each key, or on rows that are alike.
fn numbered_by_key(names: &Names, number: u32, home: u32, op: TreeOp) -> Op
    requires { is_by_key op ≡ true }
    ensures { result ≡ numbered (number_of names.now (is_seen_at number home)) (number_of names.now (is_seen_at_end number)) op }
{
    match op {
        TreeOp::Distinct { input } => Op::Distinct {
            input: names.number_at(number, home, &input),
        },
        TreeOp::Group {
            input,
            key,
            aggs,
            combine,
        } => Op::Group {
            input: names.number_at(number, home, &input),
            key,
            aggs,
            combine,
        },
        TreeOp::Top {
            input,
            key,
            order,
            count,
        } => Op::Top {
            input: names.number_at(number, home, &input),
            key,
            order,
            count,
        },
        _ => unreachable!(),
    }
}

/// The same of an op that brings the rows of two sides together.
fn numbered_pair(names: &Names, number: u32, home: u32, op: TreeOp) -> Op
    requires { is_pair op ≡ true }
    ensures { result ≡ numbered (number_of names.now (is_seen_at number home)) (number_of names.now (is_seen_at_end number)) op }
{
    match op {
        TreeOp::Join {
            left,
            right,
            left_key,
            right_key,
            columns,
            kind,
            left_default,
            right_default,
        } => Op::Join {
            left: names.number_at(number, home, &left),
            right: names.number_at(number, home, &right),
            left_key,
            right_key,
            columns,
            kind,
            left_default,
            right_default,
        },
        TreeOp::Cogroup {
            left,
            right,
            left_key,
            right_key,
            left_aggs,
            right_aggs,
        } => Op::Cogroup {
            left: names.number_at(number, home, &left),
            right: names.number_at(number, home, &right),
            left_key,
            right_key,
            left_aggs,
            right_aggs,
        },
        _ => unreachable!(),
    }
}

/// The same of an op with a body.
fn numbered_iteration(names: &Names, number: u32, home: u32, op: TreeOp) -> Op
    requires { has_bind op ≡ true }
    ensures { result ≡ numbered (number_of names.now (is_seen_at number home)) (number_of names.now (is_seen_at_end number)) op }
{
    match op {
        TreeOp::Bulk {
            init,
            bind,
            max,
            next,
            until,
        } => Op::Bulk {
            init: names.number_at(number, home, &init),
            bind,
            max,
            next: names.number_at_end(number, &next),
            until: optional_at_end(names, number, until),
        },
        TreeOp::Delta {
            solution,
            workset,
            bind,
            key,
            order,
            merge,
            max,
            delta,
            next,
        } => Op::Delta {
            solution: names.number_at(number, home, &solution),
            workset: names.number_at(number, home, &workset),
            bind,
            key,
            order,
            merge,
            max,
            delta: names.number_at_end(number, &delta),
            next: names.number_at_end(number, &next),
        },
        _ => unreachable!(),
    }
}

/// The number at the end of an iteration's body of a name that may be absent.
fn optional_at_end(names: &Names, iteration: u32, name: Option<Name>) -> Option<u32>
    ensures { result ≡ option_map (number_of names.now (is_seen_at_end iteration)) name }
{
    match name {
        None => None,
        Some(name) => Some(names.number_at_end(iteration, &name)),
    }
}

/// The same of a union of these names.
fn numbered_union(
    alloc: Global,
    names: &Names,
    number: u32,
    home: u32,
    inputs: &NameList,
) -> Result<Op, Memory>
    ensures { IfOk result (λ made. made ≡ Op.Union (map (number_of names.now (is_seen_at number home)) inputs.now)) }
{
    let inputs = numbers_at(alloc, names, number, home, inputs)?;
    Ok(Op::Union { inputs })
}

/// The numbers of the names that a union names.
fn numbers_at(
    alloc: Global,
    names: &Names,
    number: u32,
    home: u32,
    inputs: &NameList,
) -> Result<NumberList, Memory>
    ensures { IfOk result (λ numbers. numbers ≡ map (number_of names.now (is_seen_at number home)) inputs.now) }
{
    let mut numbers = Vec::new(alloc);
    for name in inputs.as_slice() {
        numbers.push(names.number_at(number, home, name))?;
    }
    Ok(Items::from_vec(numbers))
}
