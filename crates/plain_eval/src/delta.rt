ghost use Rattle.std.specs.Prelude.{◌≡◌, false, IfOk, MatchOption};
ghost use Rattle.flow_model.specs.Algebra.{source_numbers, given, delta_start, delta_next};
ghost use Rattle.flow_model.specs.Segments.{is_delta};
ghost use Rattle.plain_eval.specs.Iterations.{SaysOf};

use crate::body::superstep;
use crate::env::{rows_at, take_rows};
use crate::state::State;
use flow_model::made::Made;
use flow_model::op::{MergeRule, Op};
use flow_model::plan::Node;
use flow_model::rows::Rows;
use flow_outside::failure::Memory;
use flow_types::order_item::OrderItem;
use flow_types::row::Row;
use plain_ops::held::Held;
use plain_ops::lists::copy_rows;
use plain_ops::solutions::{chosen, merged};
use sqlite_items::Items;
use std::alloc::Global;

/// What a delta iteration says of its states.
#[derive(Drop)]
pub struct Delta<'a> {
    /// The number whose rows the solution is chosen of.
    pub solution: u32,
    /// The number whose rows are the first workset.
    pub workset: u32,
    /// The fields of the solution's key.
    pub key: &'a [u16],
    /// The order by which rows of one key are ranked.
    pub order: &'a [OrderItem],
    /// What decides between the deltas of a key and its old entry.
    pub merge: MergeRule,
    /// The most supersteps.
    pub most: u32,
    /// The number whose rows are put into the solution.
    pub delta: u32,
    /// The number whose rows are the next workset.
    pub next: u32,
}

impl<'a> Delta<'a> {
    /// What an op says that is a delta iteration; none of another op.
    pub fn of(op: &'a Op) -> Option<Delta<'a>>
        ensures { MatchOption result (is_delta op.now ≡ false) (λ delta. SaysOf op.now delta.solution
            delta.workset delta.key.now delta.order.now delta.merge delta.most delta.delta delta.next) }
    {
        match op {
            Op::Delta {
                solution,
                workset,
                key,
                order,
                merge,
                max,
                delta,
                next,
                ..
            } => Some(Delta {
                solution: *solution,
                workset: *workset,
                key: key.as_slice(),
                order: order.as_slice(),
                merge: *merge,
                most: *max,
                delta: *delta,
                next: *next,
            }),
            _ => None,
        }
    }
}

/// The state before the first superstep: for each key the solution's row with the greatest rank, and
/// the workset.
pub fn first_state(alloc: Global, made: &[Made], delta: &Delta<'_>) -> Result<State, Memory>
    ensures { IfOk result
        (λ state. state ≡ delta_start made.now delta.now.solution delta.now.workset delta.now.key.now delta.now.order.now) }
{
    let rows = rows_at(made, delta.solution);
    let entries = chosen(alloc, delta.key, delta.order, rows)?;
    let workset = copy_rows(alloc, rows_at(made, delta.workset))?;
    Ok(State::of(entries, workset))
}

/// The state that a superstep makes of another one, which it moves. What was made before stays as it
/// was.
pub fn next_state(
    alloc: Global,
    nodes: &[Node],
    inputs: &[Rows],
    made: &mut Vec<Made>,
    number: u32,
    delta: &Delta<'_>,
    state: State,
) -> Result<State, Memory>
    ensures state { IfOk result
        (λ next. next ≡ delta_next (given (source_numbers nodes.now) inputs.now) nodes.now made.old.items number delta.now.key.now delta.now.order.now delta.now.merge delta.now.delta delta.now.next state) }
    ensures made { IfOk result (λ _. made.new.items ≡ made.old.items) }
{
    let kept = made.len();
    let (entries, workset) = state.into_parts();
    let held = held_by(alloc, delta.key, entries)?;
    superstep(alloc, nodes, inputs, &held, made, number, workset)?;
    let deltas = rows_at(made.as_slice(), delta.delta);
    let entries = merged(
        alloc,
        delta.key,
        delta.order,
        delta.merge,
        held.entries(),
        deltas,
    )?;
    let workset = take_rows(alloc, made, kept, delta.next)?;
    Ok(State::of(entries, workset))
}

/// Entries as a solution under a key.
fn held_by(alloc: Global, key: &[u16], entries: Vec<Row>) -> Result<Held, Memory>
    ensures { IfOk result (λ held. held ≡ record { key = key.now; entries = entries.items }) }
{
    let Ok(key) = Items::from_slice(alloc, key) else {
        return Err(Memory);
    };
    Ok(Held::of(key, entries))
}
