ghost use Rattle.std.specs.Prelude.{◌≡◌, ◌≤◌, [], option_map, IfOk};
ghost use Rattle.flow_model.specs.Algebra.{source_numbers, given};
ghost use Rattle.flow_model.specs.Full.{full};
ghost use Rattle.flow_model.specs.Rules.{IsPlan};
ghost use Rattle.plain_full.specs.Demands.{seen, first_of_op, first_of_nodes};

use crate::demand::Demand;
use crate::shares::{Shares, solution_bytes};
use crate::states::first_of_delta;
use flow_model::made::Made;
use flow_model::plan::{Node, Plan};
use flow_model::rows::{Inputs, Rows};
use flow_outside::failure::Memory;
use plain_eval::delta::Delta;
use plain_eval::env::push_made;
use plain_eval::eval::node_rows;
use std::alloc::Global;

/// The first demand of a plan's run, by node, superstep and worker, that is above what is there: which
/// delta iteration would have a full solution set, and after which superstep. `None` exactly where each
/// solution set fits.
///
/// The budget may be below the plan's minimum; a worker's part is then the least. The inputs are one
/// list of rows for each source in plan order, which need not fit their schemas. Want of memory is also
/// answered where an expression's text passes a text's limit, as it can over inputs that don't fit.
///
/// It is plain: the cost is that of `eval_rows`, where each delta iteration is gone through twice and
/// each worker hashes the key of each entry in each superstep.
pub fn full(
    alloc: Global,
    plan: &Plan,
    inputs: &Inputs,
    workers: u32,
    budget: u32,
) -> Result<Option<Demand>, Memory>
    requires plan { IsPlan plan.now }
    requires least { 1 ≤ workers }
    requires most { workers ≤ 32 }
    ensures { IfOk result
        (λ first. option_map seen first ≡ full plan.now inputs.now workers budget) }
{
    let have = solution_bytes(plan, workers, budget);
    let shares = Shares { workers, have };
    first_of_nodes(alloc, plan.nodes.as_slice(), inputs.inputs(), shares)
}

/// The first demand of the outer list that is above what is there, by node, superstep and worker.
fn first_of_nodes(
    alloc: Global,
    nodes: &[Node],
    inputs: &[Rows],
    shares: Shares,
) -> Result<Option<Demand>, Memory>
    requires { 1 ≤ shares.workers }
    ensures { IfOk result
        (λ first. option_map seen first ≡ first_of_nodes shares.workers shares.have (given (source_numbers nodes.now) inputs.now) nodes.now [] nodes.now) }
{
    let mut made = Vec::new(alloc);
    for node in nodes {
        if node.home == 0 {
            let first = first_of_node(alloc, nodes, inputs, &mut made, node, shares)?;
            if first.is_some() {
                return Ok(first);
            }
            let rows = node_rows(alloc, nodes, inputs, &mut made, node)?;
            push_made(&mut made, node.number, rows)?;
        }
    }
    Ok(None)
}

/// The first demand of a node that is above what is there; none where it is no delta iteration. What was
/// made before stays as it was.
fn first_of_node(
    alloc: Global,
    nodes: &[Node],
    inputs: &[Rows],
    made: &mut Vec<Made>,
    node: &Node,
    shares: Shares,
) -> Result<Option<Demand>, Memory>
    requires { 1 ≤ shares.workers }
    ensures first { IfOk result
        (λ first. option_map seen first ≡ first_of_op shares.workers shares.have (given (source_numbers nodes.now) inputs.now) nodes.now made.old.items node.now.number node.now.op) }
    ensures made { IfOk result (λ _. made.new.items ≡ made.old.items) }
{
    match Delta::of(&node.op) {
        Some(delta) => first_of_delta(alloc, nodes, inputs, made, node.number, &delta, shares),
        None => Ok(None),
    }
}
