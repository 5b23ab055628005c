ghost use Rattle.std.specs.Prelude.{◌≡◌, IfOk};
ghost use Rattle.flow_model.specs.Algebra.{source_numbers, given, node_rows, eval};
ghost use Rattle.plain_eval.specs.Iterations.{bulk_node_rows, delta_node_rows};

use crate::body::plain_rows;
use crate::delta::Delta;
use crate::env::{push_made, take_rows};
use crate::iterate::{Bulk, bulk_rows, delta_rows};
use flow_model::made::Made;
use flow_model::op::Op;
use flow_model::plan::{Node, Plan};
use flow_model::rows::{Inputs, Rows};
use flow_outside::failure::Memory;
use flow_types::row::Row;
use plain_ops::held::Held;
use std::alloc::Global;

/// The rows of a plan's result, as the algebra gives them of the inputs, one list of rows for each
/// source in plan order; a source past the inputs has no rows. Every op is served, and the plan need
/// not be an accepted one. An expression whose text passes a text's limit is answered as want of memory;
/// an accepted plan over inputs that fit has none.
///
/// It is the plain program: the cost is a copy of the rows that each node gives, and for an op that
/// goes by keys a sort of its rows, in each superstep anew.
pub fn eval_rows(alloc: Global, plan: &Plan, inputs: &Inputs) -> Result<Rows, Memory>
    ensures { IfOk result (λ rows. rows ≡ eval plan.now inputs.now) }
{
    let nodes = plan.nodes.as_slice();
    let inputs = inputs.inputs();
    let mut made = Vec::new(alloc);
    for node in nodes {
        if node.home == 0 {
            let rows = node_rows(alloc, nodes, inputs, &mut made, node)?;
            push_made(&mut made, node.number, rows)?;
        }
    }
    let rows = take_rows(alloc, &mut made, 0, plan.result)?;
    Ok(Rows::of(rows))
}

/// The rows of a node of the outer list; an iteration gives the rows of its last state. What was made
/// before stays as it was.
pub fn node_rows(
    alloc: Global,
    nodes: &[Node],
    inputs: &[Rows],
    made: &mut Vec<Made>,
    node: &Node,
) -> Result<Vec<Row>, Memory>
    ensures rows { IfOk result
        (λ rows. rows.items ≡ node_rows (given (source_numbers nodes.now) inputs.now) nodes.now made.old.items node.now.number node.now.op) }
    ensures made { IfOk result (λ _. made.new.items ≡ made.old.items) }
{
    match &node.op {
        Op::Bulk { .. } => bulk_node_rows(alloc, nodes, inputs, made, node),
        Op::Delta { .. } => delta_node_rows(alloc, nodes, inputs, made, node),
        _ => {
            let nothing = Held::nothing(alloc);
            plain_rows(alloc, nodes, inputs, &nothing, made.as_slice(), node)
        }
    }
}

/// The rows of a node that is a bulk iteration; none of another.
fn bulk_node_rows(
    alloc: Global,
    nodes: &[Node],
    inputs: &[Rows],
    made: &mut Vec<Made>,
    node: &Node,
) -> Result<Vec<Row>, Memory>
    ensures rows { IfOk result
        (λ rows. rows.items ≡ bulk_node_rows (given (source_numbers nodes.now) inputs.now) nodes.now made.old.items node.now.number node.now.op) }
    ensures made { IfOk result (λ _. made.new.items ≡ made.old.items) }
{
    match &node.op {
        Op::Bulk {
            init,
            max,
            next,
            until,
            ..
        } => {
            let bulk = Bulk {
                init: *init,
                most: *max,
                next: *next,
                until: *until,
            };
            bulk_rows(alloc, nodes, inputs, made, node.number, bulk)
        }
        _ => Ok(Vec::new(alloc)),
    }
}

/// The rows of a node that is a delta iteration; none of another.
fn delta_node_rows(
    alloc: Global,
    nodes: &[Node],
    inputs: &[Rows],
    made: &mut Vec<Made>,
    node: &Node,
) -> Result<Vec<Row>, Memory>
    ensures rows { IfOk result
        (λ rows. rows.items ≡ delta_node_rows (given (source_numbers nodes.now) inputs.now) nodes.now made.old.items node.now.number node.now.op) }
    ensures made { IfOk result (λ _. made.new.items ≡ made.old.items) }
{
    match Delta::of(&node.op) {
        Some(delta) => delta_rows(alloc, nodes, inputs, made, node.number, &delta),
        None => Ok(Vec::new(alloc)),
    }
}
