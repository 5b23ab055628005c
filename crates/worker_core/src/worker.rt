ghost use Rattle.std.specs.Prelude.{◌≡◌, ℕ, ◌+◌, ◌-◌, ◌^◌, ◌<◌, [], ◌∷◌};
ghost use Rattle.std.specs.Prelude.{IfErr, IfOk, OnOk, Some, IsSome, length, min};
ghost use Rattle.segment_core.specs.Segments.{segment_sum};
ghost use Rattle.std.specs.Option.{option_copied};
ghost use Rattle.flow_model.specs.declared.plan.Node.{Node};
ghost use Rattle.flow_model.specs.declared.plan.Plan.{Plan};
ghost use Rattle.flow_model.specs.Rules.{IsPlan, node_at, references};
ghost use Rattle.model_laws.specs.LawsOfPlanFits.{StatesValues};
ghost use Rattle.flow_outside.specs.Told.{IfTold};
ghost use Rattle.lot_store.specs.Lots.{LotView};
ghost use Rattle.lot_store.specs.Storage.{IsReadyAt, held_sum, lot_at};
ghost use Rattle.spool.specs.Spilling.{HasWriteCause};
ghost use Rattle.worker_storage.specs.Storages.{view_of, with_lot};
ghost use Rattle.worker_core.specs.Workers.{HoldsNodes, HoldsTheSame, IsBeingFilled, IsFilling, IsRowOf, MayTakeItsPlace, SparesBeside, Stores, TakesItsPlace};
ghost use Rattle.worker_core.specs.Workers.{worker_rows};
ghost use Rattle.row_pipe.specs.Works.{work_of};
ghost use Rattle.row_pipe.specs.declared.work.Work.{Work};
ghost use Rattle.worker_core.specs.Workers.{GoesByRow, HasStageCause, IsAllotmentOf, IsNew};
ghost use Rattle.worker_core.specs.Workers.{IsShareOf, IsSound};
ghost use Rattle.worker_core.specs.Workers.{IsWorkerOf, KeepsWorker, LeavesDisk, PassesOn};
ghost use Rattle.worker_core.specs.Workers.{StagesAll, Stages, TakesFrom};

use crate::opening::{end_lots, open_pipes, open_places};
use crate::staging::pipe_to_rest;
use expr_core::scratch::Scratch;
use flow_model::op::Op;
use flow_model::plan::{Node, Plan};
use flow_outside::failure::StreamFault;
use flow_outside::spill::Spill;
use lot_store::lot::Lot;
use plan_need::budget::Allot;
use plan_need::need::reach;
use row_pipe::row_pipe::RowPipe;
use segment_core::Purse;
use span_bytes::span::Span;
use std::alloc::Global;
use std::marker::Model;
use std::slice;
use worker_storage::WorkerStorage;

/// A worker of a plan: its purse, its disk and its lots, one for each node and one more, and what
/// it needs to make the nodes' rows. It may not be let go: `end` gives its purse and its disk
/// back.
pub struct Worker<D: Spill> {
    me: u32,
    workers: u32,
    storage: WorkerStorage<D>,
    pipes: Vec<Option<RowPipe>>,
    scratch: Scratch,
}

impl<D: Spill> Model for Worker<D> {
    ghost use Rattle.std.specs.Coded.{codes};
    ghost use Rattle.flow_types.specs.contracts.expr.Expr as expr;
    ghost use Rattle.worker_core.specs.Workers.{WorkerView};

    ghost Value = { WorkerView D };

    ghost coded = { Prim.hlevel (codes, expr.the_row.coded) };

    ghost view = { λ w. record {
      me = w.me;
      workers = w.workers;
      storage = w.storage;
      pipes = w.pipes.items;
    } };
}

/// What was handed to a worker that couldn't be opened, for want of memory.
pub struct WorkerMemory<D> {
    pub purse: Purse,
    pub disk: D,
}

/// What a worker had: in the purse stands every segment that it held.
pub struct WorkerEnd<D> {
    pub purse: Purse,
    pub disk: D,
}

impl<D: Spill> Worker<D> {
    /// A worker of a plan, with its share of the segments and a disk of its own. It holds no rows.
    /// All memory that a worker needs is taken here: a scratch of 589,824 bytes, a copy of the
    /// expressions of each node that goes row by row, and 96 bytes for each segment that keeps
    /// datasets. Where there isn't so much, the purse and the disk come back. The lot of the result
    /// keeps no pages, so that its rows stay where the worker ends.
    pub fn open(
        alloc: Global,
        plan: &Plan,
        allot: &Allot,
        me: u32,
        purse: Purse,
        disk: D,
    ) -> Result<Worker<D>, WorkerMemory<D>>
        requires rules { IsPlan plan.now }
        requires allot { IsAllotmentOf plan.now allot.now }
        requires me { me < allot.now.workers }
        requires share { IsShareOf plan.now allot.now purse }
        ensures new { IfOk result (IsNew D.told plan.now allot.now me purse disk) }
        ensures back { IfErr result (λ handed. (handed.purse ≡ purse) × (handed.disk ≡ disk)) }
    {
        let Ok(scratch) = Scratch::open(alloc) else {
            return Err(WorkerMemory { purse, disk });
        };
        let Ok(pipes) = open_pipes(alloc, plan) else {
            return Err(WorkerMemory { purse, disk });
        };
        let count = plan.nodes.as_slice().len() as u32 + 1;
        let room = allot.cache / count;
        let Ok(lots) = open_places(alloc, count, room, reach(plan), plan.result) else {
            return Err(WorkerMemory { purse, disk });
        };
        // The purse has room for what it holds, for the prover alone.
        let _held = purse.len();
        let storage = WorkerStorage::of(plan.segment, purse, disk, lots);
        Ok(Worker {
            me,
            workers: allot.workers,
            storage,
            pipes,
            scratch,
        })
    }

    /// Ends the worker: its lots are emptied, and every segment that it held is in the purse. A
    /// fault of the disk meanwhile shows in the disk's count alone; blocks of the lots may then
    /// stay live.
    pub fn end(self) -> WorkerEnd<D>
        requires { (plan : Plan) × IsWorkerOf D.told plan self }
        ensures room { result.purse.room ≡ self.storage.purse.room }
        ensures segments { (h : ℕ → ℕ → ℕ) → segment_sum h result.purse.pages ≡
            segment_sum h self.storage.purse.pages + held_sum h self.storage.lots }
        ensures disk { LeavesDisk (D.fault_count self.storage.disk) (D.fault_count result.disk)
            (D.told self.storage.disk) (D.told result.disk) self.storage.lots }
        ensures beside { SparesBeside D.told self.storage result.disk }
    {
        let Worker {
            me: _,
            workers: _,
            mut storage,
            pipes: _pipes,
            scratch: _scratch,
        } = self;
        let _emptied = storage.drop_all();
        let (purse, disk, lots) = storage.into_parts();
        end_lots(lots);
        WorkerEnd { purse, disk }
    }

    /// What is true of every worker: all of its lots stand together. It does nothing, and is called
    /// for the prover alone.
    pub fn limits(&self)
        ensures { IsReadyAt self.now.storage.size (view_of D.told self.now.storage) }
    {
        self.storage.limits();
    }

    /// Puts a lot from outside in the place of a node's, which then is outside. The lot stands together
    /// with those of the worker, and the one that goes then does. The plan is there for the prover
    /// alone.
    pub fn exchange_lot(&mut self, _plan: &Plan, node: u32, lot: &mut Lot)
        requires rules { IsPlan _plan.now }
        requires sound { IsSound D.told _plan.now self.old }
        requires lot { MayTakeItsPlace D.told _plan.now node self.old lot.old }
        ensures sound { IsSound D.told _plan.now self.new }
        ensures placed { TakesItsPlace D.told _plan.now.nodes node lot.old self.old self.new }
        ensures given { (d : LotView) → lot.new ≡ lot_at self.old.storage.lots node d }
        ensures stands { IsReadyAt self.new.storage.size (with_lot lot.new (view_of D.told
            self.new.storage)) }
    {
        self.storage.exchange(node as usize, lot);
    }

    /// Adds a record behind those of a node, as `Lot::append` does. The plan is there for the prover
    /// alone.
    ///
    /// `Spill` only where the disk's count of faults rose in this call; the rows of the node are then
    /// open. It copies the record's bytes, and a page costs one write at most. It takes no memory.
    pub fn store_row<X: Span>(
        &mut self,
        _plan: &Plan,
        node: u32,
        row: &X,
    ) -> Result<(), StreamFault>
        requires rules { IsPlan _plan.now }
        requires filling { IsFilling D.told _plan.now node self.old }
        requires row { IsRowOf _plan.now node (X.seen row.now) }
        ensures filled { IsBeingFilled D.told _plan.now node self.new }
        ensures filling { OnOk result (IsFilling D.told _plan.now node self.new) }
        ensures stores { OnOk result (IfTold (D.told self.old.storage.disk)
            (λ _. Stores D.told _plan.now.nodes node (X.seen row.now) self.old self.new)) }
        ensures keeps { KeepsWorker D.told self.old self.new (node ∷ []) (node ∷ []) }
        ensures cause { HasWriteCause (D.fault_count self.old.storage.disk)
            (D.fault_count self.new.storage.disk) result }
    {
        // All of it stands together, for the prover alone.
        self.storage.limits();
        self.storage.append(node as usize, row)
    }

    /// Brings the lot of a node to rest that was being filled, as `Lot::rest` does. The plan is there
    /// for the prover alone.
    ///
    /// `Spill` only where the disk's count of faults rose in this call; the rows of the node are then
    /// open.
    pub fn rest_lot(&mut self, _plan: &Plan, node: u32) -> Result<(), StreamFault>
        requires rules { IsPlan _plan.now }
        requires filled { IsBeingFilled D.told _plan.now node self.old }
        requires node { IsSome (node_at _plan.now.nodes node) }
        ensures worker { IsWorkerOf D.told _plan.now self.new }
        ensures sound { IfTold (D.told self.old.storage.disk) (HoldsNodes _plan.now.nodes
            self.old.storage.lots) → OnOk result (IsSound D.told _plan.now self.new) }
        ensures same { IfTold (D.told self.old.storage.disk) (HoldsNodes _plan.now.nodes
            self.old.storage.lots) → OnOk result (HoldsTheSame D.told _plan.now.nodes self.old
            self.new) }
        ensures keeps { KeepsWorker D.told self.old self.new (node ∷ []) (node ∷ []) }
        ensures cause { HasWriteCause (D.fault_count self.old.storage.disk)
            (D.fault_count self.new.storage.disk) result }
    {
        // All of it stands together, for the prover alone.
        self.storage.limits();
        self.storage.rest(node as usize)
    }

    /// How many rows this worker holds of a node, 2^64 - 1 where there are more. Each page of the
    /// node's lot is read once, and all lots rest afterwards. The plan is there for the prover alone.
    ///
    /// `Spill` comes only where the disk's count of faults rose in this call, `Damaged` only over
    /// a disk that doesn't tell, with the block that was read last.
    pub fn rows(&mut self, _plan: &Plan, node: u32) -> Result<u64, StreamFault>
        requires rules { IsPlan _plan.now }
        requires sound { IsSound D.told _plan.now self.old }
        requires node { IsSome (node_at _plan.now.nodes node) }
        ensures count { IfOk result (λ count. IfTold (D.told self.old.storage.disk)
            (λ _. count ≡ min (length (worker_rows D.told _plan.now.nodes self.old node)) (2 ^ 64 -
            1))) }
        ensures sound { IsSound D.told _plan.now self.new }
        ensures same { HoldsTheSame D.told _plan.now.nodes self.old self.new }
        ensures keeps { KeepsWorker D.told self.old self.new (node ∷ []) [] }
        ensures cause { HasStageCause (D.fault_count self.old.storage.disk)
            (D.fault_count self.new.storage.disk) (D.told self.old.storage.disk) self.new.storage
            result }
    {
        // All of it stands together, for the prover alone.
        self.storage.limits();
        self.storage.rows(node as usize)
    }

    /// This worker's number, from 0.
    pub fn me(&self) -> u32
        ensures { result ≡ self.now.me }
    {
        self.me
    }

    /// Makes this worker's rows of a node of the outer list that goes row by row: a map, a filter,
    /// a flat map or a union. What the node's op makes of the rows that the worker holds of its
    /// inputs stands behind those that it held of the node, in order. All lots rest afterwards,
    /// whatever the answer, and no memory is taken.
    ///
    /// `Spill` comes only where the disk's count of faults rose in this call, `Damaged` only over
    /// a disk that doesn't tell, with the block that was read last. After a fault the rows of the
    /// node are open.
    pub fn stage(&mut self, plan: &Plan, node: u32) -> Result<(), StreamFault>
        requires rules { IsPlan plan.now × StatesValues plan.now }
        requires sound { IsSound D.told plan.now self.old }
        requires node { GoesByRow plan.now.nodes node }
        ensures worker { IsWorkerOf D.told plan.now self.new }
        ensures sound { OnOk result (IsSound D.told plan.now self.new) }
        ensures stages { OnOk result ((o : Node) → node_at plan.now.nodes node ≡ Some o →
            Stages D.told plan.now.nodes node o.op self.old self.new) }
        ensures keeps { (o : Node) → node_at plan.now.nodes node ≡ Some o →
            KeepsWorker D.told self.old self.new (node ∷ references o.op) (node ∷ []) }
        ensures cause { HasStageCause (D.fault_count self.old.storage.disk)
            (D.fault_count self.new.storage.disk) (D.told self.old.storage.disk) self.new.storage
            result }
    {
        match node_at(plan.nodes.as_slice(), node) {
            Some(found) => self.pass_all(plan, row_inputs(&found.op), node),
            None => unreachable!(),
        }
    }

    /// The rows of all inputs of a node, one input after the other.
    fn pass_all(&mut self, plan: &Plan, inputs: &[u32], to: u32) -> Result<(), StreamFault>
        requires rules { IsPlan plan.now × StatesValues plan.now }
        requires sound { IsSound D.told plan.now self.old }
        requires node { GoesByRow plan.now.nodes to }
        requires inputs { (o : Node) → node_at plan.now.nodes to ≡ Some o → inputs.now ≡
            references o.op }
        ensures worker { IsWorkerOf D.told plan.now self.new }
        ensures sound { OnOk result (IsSound D.told plan.now self.new) }
        ensures stages { OnOk result ((o : Node) (w : Work) → node_at plan.now.nodes to ≡ Some o →
            Some w ≡ work_of o.op →
            StagesAll D.told plan.now.nodes inputs.now to w self.old.storage self.new.storage) }
        ensures keeps { KeepsWorker D.told self.old self.new (to ∷ inputs.now) (to ∷ []) }
        ensures cause { HasStageCause (D.fault_count self.old.storage.disk)
            (D.fault_count self.new.storage.disk) (D.told self.old.storage.disk) self.new.storage
            result }
    {
        'inputs: for input in inputs {
            match self.pass_on(plan, *input, to) {
                Ok(()) => (),
                Err(fault) => return Err(fault),
            }
        }
        Ok(())
    }

    /// The rows of one input of a node. The plan is there for the prover alone.
    fn pass_on(&mut self, _plan: &Plan, from: u32, to: u32) -> Result<(), StreamFault>
        requires rules { IsPlan _plan.now × StatesValues _plan.now }
        requires sound { IsSound D.told _plan.now self.old }
        requires takes { TakesFrom _plan.now.nodes to from }
        ensures worker { IsWorkerOf D.told _plan.now self.new }
        ensures sound { OnOk result (IsSound D.told _plan.now self.new) }
        ensures passes { OnOk result ((o : Node) (w : Work) → node_at _plan.now.nodes to ≡ Some o →
            Some w ≡ work_of o.op →
            PassesOn D.told _plan.now.nodes from to w self.old.storage self.new.storage) }
        ensures keeps { KeepsWorker D.told self.old self.new (from ∷ to ∷ []) (to ∷ []) }
        ensures cause { HasStageCause (D.fault_count self.old.storage.disk)
            (D.fault_count self.new.storage.disk) (D.told self.old.storage.disk) self.new.storage
            result }
    {
        match &self.pipes[to as usize] {
            Some(p) => {
                pipe_to_rest(
                    &mut self.storage,
                    p,
                    from as usize,
                    to as usize,
                    &mut self.scratch,
                )
            }
            None => unreachable!(),
        }
    }
}

/// The node of a number, where it is there.
pub fn node_at(nodes: &[Node], number: u32) -> Option<&Node>
    ensures { option_copied result ≡ node_at nodes.now number }
{
    nodes.iter().find(|node| node.number == number)
}

/// What an op refers to that goes row by row.
fn row_inputs(op: &Op) -> &[u32]
    ensures { IsSome (work_of op.now) → result.now ≡ references op.now }
{
    match op {
        Op::Map { input, .. } => slice::from_ref(input),
        Op::Filter { input, .. } => slice::from_ref(input),
        Op::FlatMap { input, .. } => slice::from_ref(input),
        Op::Union { inputs } => inputs.as_slice(),
        _ => &[],
    }
}
