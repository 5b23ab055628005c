ghost use Rattle.std.specs.Prelude.{◌≡◌, ◌≤◌, option_map, IfOk};
ghost use Rattle.flow_model.specs.Algebra.{source_numbers, given, delta_states};
ghost use Rattle.plain_full.specs.Demands.{seen, first_of_state, first_of_states};

use crate::demand::Demand;
use crate::need::need_of;
use crate::shares::Shares;
use flow_model::made::Made;
use flow_model::plan::Node;
use flow_model::rows::Rows;
use flow_outside::failure::Memory;
use flow_types::row::Row;
use plain_eval::delta::{Delta, first_state, next_state};
use std::alloc::Global;

/// The first demand of a delta iteration, by superstep and worker, that is above what is there. The
/// states are gone through up to that one, or all of them. What was made before stays as it was.
pub fn first_of_delta(
    alloc: Global,
    nodes: &[Node],
    inputs: &[Rows],
    made: &mut Vec<Made>,
    number: u32,
    delta: &Delta<'_>,
    shares: Shares,
) -> Result<Option<Demand>, Memory>
    requires { 1 ≤ shares.workers }
    ensures first { IfOk result
        (λ first. option_map seen first ≡ first_of_states shares.workers shares.have number delta.now.key.now 0 (delta_states (given (source_numbers nodes.now) inputs.now) nodes.now made.old.items number delta.now.solution delta.now.workset delta.now.key.now delta.now.order.now delta.now.merge delta.now.most delta.now.delta delta.now.next)) }
    ensures made { IfOk result (λ _. made.new.items ≡ made.old.items) }
{
    let mut state = first_state(alloc, made.as_slice(), delta)?;
    let most = u64::from(delta.most);
    let mut step = 0;
    while step < most {
        let first = first_of_state(shares, number, delta.key, step, state.entries())?;
        if first.is_some() {
            return Ok(first);
        }
        if state.is_last() {
            return Ok(None);
        }
        state = next_state(alloc, nodes, inputs, made, number, delta, state)?;
        step += 1;
    }
    first_of_state(shares, number, delta.key, step, state.entries())
}

/// The first demand of a state, by worker, that is above what is there. Each worker goes over all
/// entries.
fn first_of_state(
    shares: Shares,
    number: u32,
    key: &[u16],
    step: u64,
    entries: &[Row],
) -> Result<Option<Demand>, Memory>
    requires { 1 ≤ shares.workers }
    ensures { IfOk result
        (λ first. option_map seen first ≡ first_of_state shares.workers shares.have number key.now step entries.now) }
{
    for worker in 0..shares.workers {
        let need = need_of(key, shares.workers, worker, entries)?;
        if shares.have < need {
            return Ok(Some(Demand {
                node: number,
                step,
                worker,
                need,
                have: shares.have,
            }));
        }
    }
    Ok(None)
}
