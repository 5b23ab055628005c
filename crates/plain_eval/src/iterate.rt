ghost use Rattle.std.specs.Prelude.{◌≡◌, IfOk};
ghost use Rattle.flow_model.specs.Algebra.{rows_at, source_numbers, given, has_ended};
ghost use Rattle.plain_eval.specs.Iterations.{bulk_rows, delta_rows};

use crate::body::superstep;
use crate::delta::{Delta, first_state, next_state};
use crate::env::{rows_at, take_rows};
use flow_model::made::Made;
use flow_model::plan::Node;
use flow_model::rows::Rows;
use flow_outside::failure::Memory;
use flow_types::row::Row;
use plain_ops::held::Held;
use plain_ops::lists::copy_rows;
use std::alloc::Global;

/// What a bulk iteration says of its states.
#[derive(Clone, Copy, Debug, PartialEq, Eq)]
pub struct Bulk {
    /// The number whose rows are the first state.
    pub init: u32,
    /// The most supersteps.
    pub most: u32,
    /// The number whose rows are the next state.
    pub next: u32,
    /// The number whose rows end the iteration where there are none.
    pub until: Option<u32>,
}

/// The rows of a bulk iteration: those of its last state. The state is moved into each superstep and
/// taken out again. What was made before stays as it was.
pub fn bulk_rows(
    alloc: Global,
    nodes: &[Node],
    inputs: &[Rows],
    made: &mut Vec<Made>,
    number: u32,
    bulk: Bulk,
) -> Result<Vec<Row>, Memory>
    ensures rows { IfOk result
        (λ rows. rows.items ≡ bulk_rows (given (source_numbers nodes.now) inputs.now) nodes.now made.old.items number bulk.init bulk.most bulk.next bulk.until) }
    ensures made { IfOk result (λ _. made.new.items ≡ made.old.items) }
{
    let kept = made.len();
    let held = Held::nothing(alloc);
    let mut rows = copy_rows(alloc, rows_at(made.as_slice(), bulk.init))?;
    let mut left = bulk.most;
    while left > 0 {
        superstep(alloc, nodes, inputs, &held, made, number, rows)?;
        let ended = has_ended(made.as_slice(), bulk.until);
        rows = take_rows(alloc, made, kept, bulk.next)?;
        if ended {
            return Ok(rows);
        }
        left -= 1;
    }
    Ok(rows)
}

/// Whether rows that end an iteration are named and there are none.
fn has_ended(made: &[Made], until: Option<u32>) -> bool
    ensures { result ≡ has_ended made.now until }
{
    match until {
        Some(until) => rows_at(made, until).is_empty(),
        None => false,
    }
}

/// The rows of a delta iteration: the entries of its last state. What was made before stays as it was.
pub fn delta_rows(
    alloc: Global,
    nodes: &[Node],
    inputs: &[Rows],
    made: &mut Vec<Made>,
    number: u32,
    delta: &Delta<'_>,
) -> Result<Vec<Row>, Memory>
    ensures rows { IfOk result
        (λ rows. rows.items ≡ delta_rows (given (source_numbers nodes.now) inputs.now) nodes.now made.old.items number delta.now.solution delta.now.workset delta.now.key.now delta.now.order.now delta.now.merge delta.now.most delta.now.delta delta.now.next) }
    ensures made { IfOk result (λ _. made.new.items ≡ made.old.items) }
{
    let mut state = first_state(alloc, made.as_slice(), delta)?;
    let mut left = delta.most;
    while left > 0 {
        if state.is_last() {
            return Ok(state.into_entries());
        }
        state = next_state(alloc, nodes, inputs, made, number, delta, state)?;
        left -= 1;
    }
    Ok(state.into_entries())
}
