ghost use Rattle.std.specs.Prelude.{◌≡◌, IsSome, is_some};
ghost use Rattle.flow_model.specs.Rules.{IsPlan};
ghost use Rattle.row_pipe.specs.Laws.{MayBeOpened};
ghost use Rattle.row_pipe.specs.Works.{work_of};

use flow_model::op::Op;
use flow_model::plan::{Node, Plan};
use row_pipe::row_pipe::RowPipe;
use std::alloc::Global;

/// The pipe of a plan's node, by its place from 0; `None` of another op, and where memory is wanting.
pub(crate) fn pipe_of(alloc: Global, plan: &Plan, place: usize) -> Option<RowPipe>
    requires { IsPlan plan.now }
{
    let nodes = plan.nodes.as_slice();
    if place >= nodes.len() {
        return None;
    }
    opened(alloc, &nodes[place])
}

fn opened(alloc: Global, node: &Node) -> Option<RowPipe>
    requires { IsSome (work_of node.now.op) → MayBeOpened node.now }
{
    if !goes_by_row(&node.op) {
        return None;
    }
    RowPipe::open(alloc, node).ok()
}

/// Whether an op goes row by row.
fn goes_by_row(op: &Op) -> bool
    ensures { result ≡ is_some (work_of op.now) }
{
    matches!(
        op,
        Op::Map { .. } | Op::Filter { .. } | Op::FlatMap { .. } | Op::Union { .. }
    )
}
