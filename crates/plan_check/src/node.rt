ghost use Rattle.std.specs.Prelude.{◌≡◌, ◌||◌, IfOk};
ghost use Rattle.std.specs.Str.{bytes_eq};
ghost use Rattle.flow_model.specs.Rules.{is_placed, is_fitting, references, schema_in, input_schema};
ghost use Rattle.flow_model.specs.Schemas.{fits_schema};
ghost use Rattle.plan_check.specs.Places.{stands_before};
ghost use Rattle.plan_check.specs.Checking.{is_duplicate, typed_node, checked_node, checked_end, with_schemas, with_type};
ghost use Rattle.plan_check.specs.Steps.{refusal, with_types};
ghost use Rattle.flow_model.specs.declared.plan.Node.{Node};

use crate::names::Names;
use crate::numbering::BareNode;
use crate::ops::{has_unknown, has_unknown_end, is_iteration, is_probe, references};
use crate::schemas::{fields_at, input_fields, inputs_of, is_delta_at, key_at};
use flow_model::op::Op;
use flow_model::plan::{Node, SchemaList};
use flow_model::plan_code::PlanCode;
use flow_outside::failure::Memory;
use flow_types::name::Name;
use flow_types::schema::Schema;
use plan_typing::fit::fits_schema;
use plan_typing::ops::type_op;
use std::alloc::Global;

/// A node with its schemas, after the nodes that are done, or the first code that refuses it.
pub fn checked_node(
    alloc: Global,
    names: &Names,
    done: &[Node],
    node: BareNode,
) -> Result<Result<Node, PlanCode>, Memory>
    ensures { IfOk result (λ made. made ≡ checked_node names.now done.now node) }
{
    let types = checked_types(alloc, names, done, &node)?;
    Ok(with_types(node, types))
}

/// The schemas of the rows that a node takes, and of its own.
#[derive(Debug, Drop)]
struct NodeTypes {
    inputs: SchemaList,
    schema: Schema,
}

/// A node's types, after the nodes that are done, or the first code that refuses the node.
fn checked_types(
    alloc: Global,
    names: &Names,
    done: &[Node],
    node: &BareNode,
) -> Result<Result<NodeTypes, PlanCode>, Memory>
    ensures { IfOk result (λ types. with_types node.now types ≡ checked_node names.now done.now node.now) }
{
    let numbers = references(alloc, &node.op)?;
    match refusal(names, done, node, numbers.as_slice()) {
        Some(code) => Ok(Err(code)),
        None => types_of(alloc, done, node, numbers.as_slice()),
    }
}

/// The first code that refuses a node's names, its place or its references, which are these numbers.
fn refusal(names: &Names, done: &[Node], node: &BareNode, numbers: &[u32]) -> Option<PlanCode>
    requires { numbers.now ≡ references node.now.op }
    ensures { result ≡ refusal names.now done.now node.now }
{
    if is_duplicate(names, node) {
        return Some(PlanCode::Duplicate);
    }
    if !is_placed(done, node) {
        return Some(PlanCode::Misplaced);
    }
    if has_unknown(numbers) {
        return Some(PlanCode::UnknownName);
    }
    None
}

/// Whether a name of the node stands before it, or its two names are one.
fn is_duplicate(names: &Names, node: &BareNode) -> bool
    ensures { result ≡ is_duplicate names.now node.now }
{
    if names.stands_before(node.number, &node.name) {
        return true;
    }
    match &node.op {
        Op::Bulk { bind, .. } => is_taken(names, node, bind),
        Op::Delta { bind, .. } => is_taken(names, node, bind),
        _ => false,
    }
}

/// Whether a bind name of the node stands before it, or is its own name.
fn is_taken(names: &Names, node: &BareNode, bind: &Name) -> bool
    ensures { result ≡ stands_before names.now node.now.number bind.now || bytes_eq bind.now node.now.name }
{
    names.stands_before(node.number, bind) || bind.as_str() == node.name.as_str()
}

/// Whether no source and no iteration stands in a body, and a probe in a delta's body alone.
fn is_placed(done: &[Node], node: &BareNode) -> bool
    ensures { result ≡ is_placed done.now node.now }
{
    (!(node.op.is_source() || is_iteration(&node.op)) || node.home == 0)
        && (!is_probe(&node.op) || is_delta_at(done, node.home))
}

/// The types of a node whose references are these numbers, or the first code that refuses them.
fn types_of(
    alloc: Global,
    done: &[Node],
    node: &BareNode,
    numbers: &[u32],
) -> Result<Result<NodeTypes, PlanCode>, Memory>
    requires { numbers.now ≡ references node.now.op }
    ensures { IfOk result (λ types. with_types node.now types ≡ typed_node done.now node.now) }
{
    let inputs = inputs_of(alloc, done, node, numbers)?;
    let typed = type_op(alloc, &node.op, inputs.as_slice(), key_at(done, node.home))?;
    Ok(types_with(inputs, typed))
}

fn types_with(inputs: SchemaList, typed: Result<Schema, PlanCode>) -> Result<NodeTypes, PlanCode>
    ensures { (node : Node) → with_types node result ≡ with_type node inputs typed }
{
    match typed {
        Ok(schema) => Ok(NodeTypes { inputs, schema }),
        Err(code) => Err(code),
    }
}

/// A node whose types are these.
fn with_types(node: BareNode, types: Result<NodeTypes, PlanCode>) -> Result<Node, PlanCode>
    ensures { result ≡ with_types node types }
{
    match types {
        Ok(types) => Ok(with_schemas(node, types.inputs, types.schema)),
        Err(code) => Err(code),
    }
}

fn with_schemas(node: BareNode, inputs: SchemaList, schema: Schema) -> Node
    ensures { result ≡ with_schemas node inputs schema }
{
    let BareNode {
        number,
        name,
        home,
        op,
    } = node;
    Node {
        number,
        name,
        home,
        op,
        inputs,
        schema,
    }
}

/// The end of an iteration's body, after the body's nodes: the first code that refuses what its
/// superstep makes.
pub fn checked_end(done: &[Node], iteration: &Node) -> Result<(), PlanCode>
    ensures { result ≡ checked_end done.now iteration.now }
{
    if has_unknown_end(&iteration.op) {
        return Err(PlanCode::UnknownName);
    }
    if !is_fitting(done, iteration) {
        return Err(PlanCode::NoFit);
    }
    Ok(())
}

/// Whether what an iteration's superstep makes fits what it takes the place of.
fn is_fitting(done: &[Node], node: &Node) -> bool
    ensures { result ≡ is_fitting done.now node.now node.now.op }
{
    match &node.op {
        Op::Bulk { next, .. } => fits(done, node, *next, 0),
        Op::Delta { delta, next, .. } => fits(done, node, *delta, 0) && fits(done, node, *next, 1),
        _ => true,
    }
}

/// Whether what a number stands for in an iteration's body fits the iteration's first or second input.
fn fits(done: &[Node], iteration: &Node, number: u32, i: usize) -> bool
    ensures { result ≡ fits_schema (schema_in done.now iteration.now.number number) (input_schema iteration.now i) }
{
    fits_schema(
        fields_at(done, iteration.number, number),
        input_fields(iteration, i),
    )
}
