ghost use Rattle.std.specs.Prelude.{All, IsTrue};
ghost use Rattle.superstep.specs.Loading.{IsSource};
ghost use Rattle.superstep.specs.Outer.{IsServed, IsServedNode};

use flow_model::op::Op;
use flow_model::plan::{Node, Plan};
use worker_core::worker::node_at;

/// Whether all nodes of a plan are served.
pub(crate) fn is_served(plan: &Plan) -> bool
    ensures { IsTrue result → IsServed plan.now }
{
    are_served(plan.nodes.as_slice())
}

fn are_served(nodes: &[Node]) -> bool
    ensures { IsTrue result → All IsServedNode nodes.now }
{
    for node in nodes {
        if !is_served_node(node) {
            return false;
        }
    }
    true
}

fn is_served_node(node: &Node) -> bool
    ensures { IsTrue result → IsServedNode node.now }
{
    if node.home != 0 {
        return false;
    }
    match node.op {
        Op::Source { .. } => true,
        Op::Map { .. } | Op::Filter { .. } | Op::FlatMap { .. } | Op::Union { .. } => true,
        _ => false,
    }
}

/// Whether the first node of a plan is a source.
pub(crate) fn begins_with_source(plan: &Plan) -> bool
    ensures { IsTrue result → IsSource plan.now 1 }
{
    match node_at(plan.nodes.as_slice(), 1) {
        Some(node) => node.op.is_source(),
        None => false,
    }
}
