ghost use Rattle.std.specs.Prelude.{◌≡◌, IfOk};
ghost use Rattle.std.specs.List.{flat_map};
ghost use Rattle.flow_model.specs.Algebra.{rows_at, source_numbers, given, plain_rows, superstep};
ghost use Rattle.plain_eval.specs.Parts.{grouped_rows, joined_rows, cogrouped_rows};

use crate::env::{input_at, push_made, rows_at};
use flow_model::made::Made;
use flow_model::op::Op;
use flow_model::plan::Node;
use flow_model::rows::Rows;
use flow_outside::failure::Memory;
use flow_types::row::Row;
use plain_ops::groups::{cogroup_rows, distinct_rows, group_rows, top_rows};
use plain_ops::held::Held;
use plain_ops::join::{Meeting, join_rows};
use plain_ops::lists::{append_copies, copy_rows};
use plain_ops::row_ops::{filter_rows, flat_map_rows, map_rows};
use plain_ops::solutions::probe_rows;
use std::alloc::Global;

/// The rows of a node that is no iteration: of the inputs, of the solution as it stood when the
/// superstep began, and of what was made before it. An iteration has none here.
pub fn plain_rows(
    alloc: Global,
    nodes: &[Node],
    inputs: &[Rows],
    held: &Held,
    made: &[Made],
    node: &Node,
) -> Result<Vec<Row>, Memory>
    ensures { IfOk result
        (λ rows. rows.items ≡ plain_rows (given (source_numbers nodes.now) inputs.now) held.now made.now node.now.number node.now.op) }
{
    match &node.op {
        Op::Source { .. } => copy_rows(alloc, input_at(nodes, inputs, node.number)),
        Op::Map { input, columns } => map_rows(alloc, columns.as_slice(), rows_at(made, *input)),
        Op::Filter { input, test } => filter_rows(alloc, test, rows_at(made, *input)),
        Op::FlatMap { input, rows } => flat_map_rows(alloc, rows.as_slice(), rows_at(made, *input)),
        Op::Union { inputs } => union_rows(alloc, made, inputs.as_slice()),
        Op::Distinct { input } => distinct_rows(alloc, rows_at(made, *input)),
        Op::Group { .. } => grouped_rows(alloc, made, &node.op),
        Op::Top { .. } => grouped_rows(alloc, made, &node.op),
        Op::Join { .. } => joined_rows(alloc, made, &node.op),
        Op::Cogroup { .. } => cogrouped_rows(alloc, made, &node.op),
        Op::Bulk { .. } => Ok(Vec::new(alloc)),
        Op::Delta { .. } => Ok(Vec::new(alloc)),
        Op::Probe {
            input,
            key,
            columns,
        } => {
            let rows = rows_at(made, *input);
            probe_rows(alloc, held, key.as_slice(), columns.as_slice(), rows)
        }
    }
}

/// The rows of a group or a top; none of another op.
fn grouped_rows(alloc: Global, made: &[Made], op: &Op) -> Result<Vec<Row>, Memory>
    ensures { IfOk result (λ rows. rows.items ≡ grouped_rows made.now op.now) }
{
    match op {
        Op::Group {
            input,
            key,
            aggs,
            ..
        } => group_rows(
            alloc,
            key.as_slice(),
            aggs.as_slice(),
            rows_at(made, *input),
        ),
        Op::Top {
            input,
            key,
            order,
            count,
        } => {
            let (rows, count) = (rows_at(made, *input), *count as usize);
            top_rows(alloc, key.as_slice(), order.as_slice(), count, rows)
        }
        _ => Ok(Vec::new(alloc)),
    }
}

/// The rows of a join; none of another op.
fn joined_rows(alloc: Global, made: &[Made], op: &Op) -> Result<Vec<Row>, Memory>
    ensures { IfOk result (λ rows. rows.items ≡ joined_rows made.now op.now) }
{
    match op {
        Op::Join {
            left,
            right,
            left_key,
            right_key,
            columns,
            kind,
            left_default,
            right_default,
        } => {
            let meeting = Meeting {
                left_key: left_key.as_slice(),
                right_key: right_key.as_slice(),
                columns: columns.as_slice(),
            };
            let (left, right) = (rows_at(made, *left), rows_at(made, *right));
            join_rows(
                alloc,
                *kind,
                &meeting,
                left_default,
                right_default,
                left,
                right,
            )
        }
        _ => Ok(Vec::new(alloc)),
    }
}

/// The rows of a cogroup; none of another op.
fn cogrouped_rows(alloc: Global, made: &[Made], op: &Op) -> Result<Vec<Row>, Memory>
    ensures { IfOk result (λ rows. rows.items ≡ cogrouped_rows made.now op.now) }
{
    match op {
        Op::Cogroup {
            left,
            right,
            left_key,
            right_key,
            left_aggs,
            right_aggs,
        } => cogroup_rows(
            alloc,
            left_key.as_slice(),
            right_key.as_slice(),
            left_aggs.as_slice(),
            right_aggs.as_slice(),
            rows_at(made, *left),
            rows_at(made, *right),
        ),
        _ => Ok(Vec::new(alloc)),
    }
}

/// Union: the rows under each number, one after the other.
fn union_rows(alloc: Global, made: &[Made], numbers: &[u32]) -> Result<Vec<Row>, Memory>
    ensures { IfOk result (λ rows. rows.items ≡ flat_map (rows_at made.now) numbers.now) }
{
    let mut rows = Vec::new(alloc);
    for number in numbers {
        append_copies(alloc, &mut rows, rows_at(made, *number))?;
    }
    Ok(rows)
}

/// One superstep: the body is evaluated with the iteration's number standing for the state's rows,
/// which are moved. What was made stands after what was there before.
pub fn superstep(
    alloc: Global,
    nodes: &[Node],
    inputs: &[Rows],
    held: &Held,
    made: &mut Vec<Made>,
    number: u32,
    rows: Vec<Row>,
) -> Result<(), Memory>
    ensures { IfOk result
        (λ _. made.new.items ≡ superstep (given (source_numbers nodes.now) inputs.now) nodes.now held.now made.old.items number rows.items) }
{
    push_made(made, number, rows)?;
    for node in nodes {
        if node.home == number {
            let rows = plain_rows(alloc, nodes, inputs, held, made.as_slice(), node)?;
            push_made(made, node.number, rows)?;
        }
    }
    Ok(())
}
