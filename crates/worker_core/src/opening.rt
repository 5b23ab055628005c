//! What a worker opens, and what it ends.
ghost use Rattle.std.specs.Prelude.{◌≡◌, ◌<◌, [], All, IfOk, IsSome, replicate, slice_index_or, slice_set, vec_len};
ghost use Rattle.flow_model.specs.Rules.{IsPlan};
ghost use Rattle.lot_store.specs.Lots.{LotView, empty, held};
ghost use Rattle.row_pipe.specs.Laws.{MayBeOpened};
ghost use Rattle.row_pipe.specs.Works.{work_of};
ghost use Rattle.worker_core.specs.Workers.{HasPipes, IsPipeFor};

use flow_model::op::Op;
use flow_model::plan::{Node, Plan};
use flow_outside::failure::Memory;
use lot_store::lot::Lot;
use row_pipe::row_pipe::RowPipe;
use std::alloc::Global;
use std::mem;

/// So many lots that hold nothing.
pub(crate) fn open_lots(
    alloc: Global,
    count: u32,
    room: u32,
    reach: u32,
) -> Result<Vec<Lot>, Memory>
    ensures { IfOk result (λ lots. lots.items ≡ replicate count (empty room reach)) }
{
    let mut lots = Vec::with_capacity(alloc, count as usize)?;
    'lots: for _ in 0..count {
        match Lot::open(alloc, room, reach) {
            Ok(lot) => lots.push_reserved(lot),
            Err(fault) => {
                end_lots(lots);
                return Err(fault);
            }
        }
    }
    Ok(lots)
}

/// The same, of which the one at a place keeps no pages.
pub(crate) fn open_places(
    alloc: Global,
    count: u32,
    room: u32,
    reach: u32,
    bare: u32,
) -> Result<Vec<Lot>, Memory>
    requires { bare < count }
    ensures { IfOk result (λ lots. lots.items ≡ slice_set (replicate count (empty room reach)) bare
        (empty 0 reach)) }
{
    let mut lots = open_lots(alloc, count, room, reach)?;
    match Lot::open(alloc, 0, reach) {
        Ok(lot) => {
            put_at(&mut lots, bare, lot).end();
            Ok(lots)
        }
        Err(fault) => {
            end_lots(lots);
            Err(fault)
        }
    }
}

/// Puts a lot in the place of one, which it gives.
fn put_at(lots: &mut Vec<Lot>, at: u32, lot: Lot) -> Lot
    requires { at < vec_len lots.old }
    ensures placed { lots.new.items ≡ slice_set lots.old.items at lot }
    ensures given { (d : LotView) → result ≡ slice_index_or lots.old.items at d }
{
    mem::replace(&mut lots[at as usize], lot)
}

/// Ends lots that hold no segment.
pub(crate) fn end_lots(mut lots: Vec<Lot>)
    requires { All (λ (lot : LotView). held lot ≡ []) lots.items }
{
    'lots: while let Some(lot) = lots.pop() {
        lot.end();
    }
    lots.destroy_empty();
}

/// By the nodes' numbers the pipe of each node that goes row by row, and none of another.
pub(crate) fn open_pipes(alloc: Global, plan: &Plan) -> Result<Vec<Option<RowPipe>>, Memory>
    requires { IsPlan plan.now }
    ensures { IfOk result (λ pipes. HasPipes plan.now.nodes pipes.items) }
{
    let mut pipes = Vec::new(alloc);
    pipes.push(None)?;
    'nodes: for node in plan.nodes.as_slice() {
        pipes.push(pipe_of(alloc, node)?)?;
    }
    Ok(pipes)
}

/// The pipe of a node that goes row by row, and none of another.
fn pipe_of(alloc: Global, node: &Node) -> Result<Option<RowPipe>, Memory>
    requires { IsSome (work_of node.now.op) → MayBeOpened node.now }
    ensures { IfOk result (IsPipeFor node.now) }
{
    match node.op {
        Op::Map { .. } | Op::Filter { .. } | Op::FlatMap { .. } | Op::Union { .. } => {
            Ok(Some(RowPipe::open(alloc, node)?))
        }
        _ => Ok(None),
    }
}
