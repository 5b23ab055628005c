ghost use Rattle.std.specs.Prelude.{◌≡◌, ℕ, ◌<◌, [], ◌∷◌, true, IfErr, IfOk, OnErr, OnOk, IsSome};
ghost use Rattle.std.specs.Prelude.{Some, None, is_some, length, reverse, vec_len};
ghost use Rattle.flow_outside.specs.Readers.{Lives, left_of, name_of};
ghost use Rattle.flow_outside.specs.Told.{IfTold};
ghost use Rattle.flow_model.specs.declared.plan.Node.{Node};
ghost use Rattle.flow_model.specs.Rules.{node_at};
ghost use Rattle.flow_types.specs.Bags.{ordered};
ghost use Rattle.superstep.specs.Emitting.{HasReadingCause};
ghost use Rattle.superstep.specs.Engines.{EngineView, HasFailed, IsDone, IsDown, IsReady, disks_of};
ghost use Rattle.superstep.specs.Engines.{first_disk, result_rows, told_of};
ghost use Rattle.superstep.specs.EngineCalls.{ClosesDisks, Executes, HasEmitCause, IsOpened};
ghost use Rattle.superstep.specs.EngineCalls.{KeepsEngine, Loads, MayBeClosed, PrintsResult};
ghost use Rattle.superstep.specs.EngineSteps.{Makes, MayBeTakenDown, ReadsResult, TakesDown};
ghost use Rattle.superstep.specs.EngineSteps.{faults_of};
ghost use Rattle.superstep.specs.Executing.{HasExecCause};
ghost use Rattle.superstep.specs.Loading.{HasEnded, HasLoadCause, IsSource, KeepsShelf};
ghost use Rattle.superstep.specs.Loading.{rows_of_input};
ghost use Rattle.superstep.specs.Opening.{IsServing};
ghost use Rattle.lot_store.specs.Storage.{IsReadyAt};
ghost use Rattle.worker_core.specs.Workers.{WorkerView};
ghost use Rattle.worker_storage.specs.Storages.{view_of};

use crate::closing::drop_place;
use crate::emitting::lent_rows;
use crate::executing::make_result;
use crate::faults::{EmitFault, ExecFault, LoadFault, OpenMemory};
use crate::ledger::Ledger;
use crate::loading::load_source;
use crate::opening::{Crew, open_crew};
use crate::phase::Phase;
use crate::receipt::Receipt;
use delim_io::result_text::{WriteFault, write_rows};
use flow_model::plan::Plan;
use flow_outside::failure::Memory;
use flow_outside::shelf::Shelf;
use flow_outside::sink::Sink;
use flow_outside::spill::Spill;
use flow_types::row::{Row, sort_rows};
use lot_store::lot::Lot;
use plan_need::budget::Allot;
use segment_core::Pool;
use std::alloc::Global;
use std::marker::Model;
use worker_core::worker::{Worker, WorkerEnd, node_at};

/// Runs a plan: inputs are loaded, the result is made, and then printed, on a fixed number of
/// segments. It may not be let go: `close` gives the disks back.
pub struct Engine<D: Spill> {
    alloc: Global,
    plan: Plan,
    allot: Allot,
    phase: Phase,
    pool: Pool,
    worker: Option<Worker<D>>,
    place: Lot,
    disk: Option<D>,
    others: Vec<D>,
}

impl<D: Spill> Model for Engine<D> {
    ghost use Rattle.std.specs.Prelude.{◌<◌, vec_capacity, vec_len};
    ghost use Rattle.superstep.specs.Engines.{EngineView};
    ghost use Rattle.std.specs.Coded.{codes};
    ghost use Rattle.flow_types.specs.contracts.expr.Expr as expr;

    ghost Value = { EngineView D };

    ghost coded = { Prim.hlevel (codes, expr.the_row.coded) };

    ghost view = { λ e. record {
      plan = e.plan;
      allot = e.allot;
      phase = e.phase;
      pool = e.pool;
      worker = e.worker;
      place = e.place;
      disk = e.disk;
      others = e.others.items;
    } };

    ghost invariant = { λ e. vec_len e.others < vec_capacity e.others };
}

/// What an engine had: all of its segments are free.
pub struct Closed<D> {
    /// The disks, in their order.
    pub disks: Vec<D>,
    pub ledger: Ledger,
}

impl<D: Spill> Engine<D> {
    /// An engine for a plan, with the segments of an allotment and the first of the disks for its
    /// worker. It takes all memory that execution needs. For want of it the disks come back.
    pub fn open(
        alloc: Global,
        plan: Plan,
        allot: Allot,
        disks: Vec<D>,
    ) -> Result<Engine<D>, OpenMemory<D>>
        requires serving { IsServing plan allot }
        requires disks { 0 < vec_len disks }
        ensures ready { IfOk result (IsReady D.told) }
        ensures new { IfOk result (IsOpened D.told plan allot disks.items) }
        ensures back { IfErr result (λ handed. handed.disks.items ≡ disks.items) }
    {
        let mut others = disks;
        others.reverse();
        let Some(disk) = others.pop() else {
            unreachable!();
        };
        match open_crew(alloc, &plan, &allot, disk) {
            Ok(
                Crew {
                    pool,
                    worker,
                    place,
                },
            ) => Ok(Engine {
                alloc,
                plan,
                allot,
                phase: Phase::Ready,
                pool,
                worker: Some(worker),
                place,
                disk: None,
                others,
            }),
            Err(disk) => {
                others.push_reserved(disk);
                others.reverse();
                Err(OpenMemory { disks: others })
            }
        }
    }

    /// Where it stands.
    pub fn phase(&self) -> Phase
        ensures { result ≡ self.now.phase }
    {
        self.phase
    }

    /// The plan.
    pub fn plan(&self) -> &Plan
        ensures { result.now ≡ self.now.plan }
    {
        &self.plan
    }

    /// How many of its segments are free.
    pub fn ledger(&self) -> Ledger
        ensures total { result.total ≡ self.now.pool.total }
        ensures free { result.free ≡ length self.now.pool.free }
    {
        Ledger::of(&self.pool)
    }

    /// Reads reader `id` of a shelf, which stands at the first byte of a source's input, to its
    /// end, and stores the rows; it gives their number. A row is read and stored one by one.
    ///
    /// After a fault every segment is free and the engine can only be closed. `Input` comes
    /// exactly where the input isn't of the form that is served, `Read` only where the shelf's
    /// count of faults at the reader's name rose in this call, `Spill` only where that of the
    /// first disk did.
    pub fn load<S: Shelf>(&mut self, source: u32, shelf: &mut S, id: u32) -> Result<u64, LoadFault>
        requires ready { IsReady D.told self.old }
        requires source { IsSource self.old.plan source }
        requires lives { Lives (S.readers shelf.old) id }
        ensures stands { OnOk result (IsReady D.told self.new)
            × OnErr result (HasFailed D.told self.new) }
        ensures loads { IfOk result (λ count. IfTold (left_of (S.readers shelf.old id))
            (Loads D.told source count self.old self.new)) }
        ensures ended { OnOk result
            (HasEnded (S.readers shelf.new) (S.living shelf.old) (S.living shelf.new) id) }
        ensures shelf { KeepsShelf (S.told shelf.old) (S.told shelf.new) (S.faults_at shelf.old)
            (S.faults_at shelf.new) (S.readers shelf.old) (S.readers shelf.new) id }
        ensures keeps { KeepsEngine D.told D.fault_count self.old self.new }
        ensures cause { let name = name_of (S.readers shelf.old id) in
            HasLoadCause (faults_of D.fault_count (first_disk self.old))
            (faults_of D.fault_count (first_disk self.new))
            (S.faults_at shelf.old name) (S.faults_at shelf.new name)
            (IfTold (left_of (S.readers shelf.old id)) (λ bytes. (node : Node) →
            node_at self.old.plan.nodes source ≡ Some node → rows_of_input node bytes ≡ None))
            result }
    {
        match self.fill(source, shelf, id) {
            Ok(count) => Ok(count),
            Err(fault) => {
                self.take_down(Phase::Failed);
                Err(fault)
            }
        }
    }

    /// Makes the result of the rows that were loaded. It takes no memory. Afterwards every segment
    /// is free, whatever the answer, and the result lies on the first disk.
    ///
    /// `Spill` comes only where the first disk's count of faults rose in this call, `Damaged` only
    /// over a disk that doesn't tell. After a fault the engine can only be closed.
    pub fn execute(&mut self) -> Result<Receipt, ExecFault>
        requires { IsReady D.told self.old }
        ensures stands { OnOk result (IsDone D.told self.new)
            × OnErr result (HasFailed D.told self.new) }
        ensures executes { IfOk result (Executes D.told self.old self.new) }
        ensures keeps { KeepsEngine D.told D.fault_count self.old self.new }
        ensures cause { HasExecCause (faults_of D.fault_count (first_disk self.old))
            (faults_of D.fault_count (first_disk self.new)) (told_of D.told (first_disk self.old))
            result }
    {
        match self.make() {
            Ok(count) => {
                self.take_down(Phase::Done);
                Ok(Receipt::of(count, 0, Ledger::of(&self.pool)))
            }
            Err(fault) => {
                self.take_down(Phase::Failed);
                Err(fault)
            }
        }
    }

    /// Prints the result: its rows are read into memory, ordered, and written, so that nothing is
    /// written before all were read. The receipt shows that it was made. It may be printed again.
    ///
    /// `Spill` comes only where the first disk's count of faults rose in this call, `Damaged` only
    /// over a disk that doesn't tell, with the block that was read last, `Write` only where the
    /// output's count rose.
    pub fn emit<K: Sink>(&mut self, _receipt: &Receipt, out: &mut K) -> Result<(), EmitFault>
        requires { IsDone D.told self.old }
        ensures stands { IsDone D.told self.new }
        ensures same { result_rows D.told self.new ≡ result_rows D.told self.old }
        ensures prints { PrintsResult D.told self.old result (K.told out.old) (K.told out.new) }
        ensures keeps { KeepsEngine D.told D.fault_count self.old self.new }
        ensures cause { HasEmitCause (faults_of D.fault_count (first_disk self.old))
            (faults_of D.fault_count (first_disk self.new)) (told_of D.told (first_disk self.old))
            (K.fault_count out.old) (K.fault_count out.new) self.new.place result }
    {
        match self.sorted_rows() {
            Ok(rows) => match write_rows(self.alloc, rows.as_slice(), out) {
                Ok(()) => Ok(()),
                Err(WriteFault::Memory) => Err(EmitFault::Memory),
                Err(WriteFault::Write) => Err(EmitFault::Write),
            },
            Err(fault) => Err(fault),
        }
    }

    /// Ends the engine, wherever it stands. The blocks of its lots are freed, unless a disk fails
    /// meanwhile or memory is wanting for a list of one segment.
    pub fn close(mut self) -> Closed<D>
        requires { MayBeClosed D.told self }
        ensures disks { ClosesDisks D.told D.fault_count self result.disks.items }
        ensures ledger { result.ledger
            ≡ record { total = self.pool.total; free = self.pool.total } }
    {
        if !self.is_staffed() {
            return self.into_closed();
        }
        self.take_down(Phase::Failed);
        self.into_closed()
    }

    /// Stores the rows of an input with the worker.
    fn fill<S: Shelf>(&mut self, source: u32, shelf: &mut S, id: u32) -> Result<u64, LoadFault>
        requires ready { IsReady D.told self.old }
        requires source { IsSource self.old.plan source }
        requires lives { Lives (S.readers shelf.old) id }
        ensures stands { OnOk result (IsReady D.told self.new) × MayBeTakenDown D.told self.new }
        ensures fills { IfOk result (λ count. IfTold (left_of (S.readers shelf.old id))
            (Loads D.told source count self.old self.new)) }
        ensures ended { OnOk result
            (HasEnded (S.readers shelf.new) (S.living shelf.old) (S.living shelf.new) id) }
        ensures shelf { KeepsShelf (S.told shelf.old) (S.told shelf.new) (S.faults_at shelf.old)
            (S.faults_at shelf.new) (S.readers shelf.old) (S.readers shelf.new) id }
        ensures keeps { KeepsEngine D.told D.fault_count self.old self.new }
        ensures cause { let name = name_of (S.readers shelf.old id) in
            HasLoadCause (faults_of D.fault_count (first_disk self.old))
            (faults_of D.fault_count (first_disk self.new))
            (S.faults_at shelf.old name) (S.faults_at shelf.new name)
            (IfTold (left_of (S.readers shelf.old id)) (λ bytes. (node : Node) →
            node_at self.old.plan.nodes source ≡ Some node → rows_of_input node bytes ≡ None))
            result }
    {
        match &mut self.worker {
            Some(worker) => {
                let answer = load_source(self.alloc, &self.plan, source, shelf, id, worker);
                // All lots stand together, for the prover alone.
                worker.limits();
                answer
            }
            None => unreachable!(),
        }
    }

    /// Makes the result with the worker, and puts its lot into the place.
    fn make(&mut self) -> Result<u64, ExecFault>
        requires { IsReady D.told self.old }
        ensures down { MayBeTakenDown D.told self.new }
        ensures makes { IfOk result (λ count. Makes D.told count self.old self.new) }
        ensures keeps { KeepsEngine D.told D.fault_count self.old self.new }
        ensures cause { HasExecCause (faults_of D.fault_count (first_disk self.old))
            (faults_of D.fault_count (first_disk self.new)) (told_of D.told (first_disk self.old))
            result }
    {
        match &mut self.worker {
            Some(worker) => make_result(worker, &self.plan, &mut self.place),
            None => unreachable!(),
        }
    }

    /// Ends the worker. All segments are free then.
    fn take_down(&mut self, phase: Phase)
        requires { MayBeTakenDown D.told self.old }
        ensures down { IsDown D.told self.new }
        ensures takes { TakesDown D.told self.old self.new }
        ensures phase { self.new.phase ≡ phase }
        ensures keeps { KeepsEngine D.told D.fault_count self.old self.new }
    {
        self.phase = phase;
        let Some(worker) = self.worker.take() else {
            unreachable!();
        };
        let WorkerEnd { purse, disk } = worker.end();
        self.pool.restore(purse);
        self.disk = Some(disk);
    }

    /// The rows of the result, in ascending order.
    fn sorted_rows(&mut self) -> Result<Vec<Row>, EmitFault>
        requires { IsDone D.told self.old }
        ensures rows { IfOk result (λ rows. IfTold (told_of D.told (first_disk self.old))
            (λ _. rows.items ≡ ordered (result_rows D.told self.old))) }
        ensures reads { ReadsResult D.told D.fault_count self.old self.new }
        ensures cause { HasReadingCause (faults_of D.fault_count (first_disk self.old))
            (faults_of D.fault_count (first_disk self.new)) (told_of D.told (first_disk self.old))
            self.new.place result }
    {
        match self.read_rows() {
            Ok(mut rows) => match sort_rows(&mut rows) {
                Ok(()) => Ok(rows),
                Err(Memory) => Err(EmitFault::Memory),
            },
            Err(fault) => Err(fault),
        }
    }

    /// The rows of the result, as they lie in its lot.
    fn read_rows(&mut self) -> Result<Vec<Row>, EmitFault>
        requires { IsDone D.told self.old }
        ensures rows { IfOk result (λ rows. IfTold (told_of D.told (first_disk self.old))
            (λ _. rows.items ≡ result_rows D.told self.old)) }
        ensures reads { ReadsResult D.told D.fault_count self.old self.new }
        ensures cause { HasReadingCause (faults_of D.fault_count (first_disk self.old))
            (faults_of D.fault_count (first_disk self.new)) (told_of D.told (first_disk self.old))
            self.new.place result }
    {
        match &mut self.disk {
            Some(disk) => lent_rows(
                self.alloc,
                &self.plan,
                &mut self.place,
                &mut self.pool,
                disk,
            ),
            None => unreachable!(),
        }
    }

    /// Whether there is a worker.
    fn is_staffed(&self) -> bool
        ensures is { result ≡ is_some self.now.worker }
        ensures stands { (w : WorkerView D) → self.now.worker ≡ Some w →
            IsReadyAt w.storage.size (view_of D.told w.storage) }
    {
        match &self.worker {
            Some(worker) => {
                // All lots stand together, for the prover alone.
                worker.limits();
                true
            }
            None => false,
        }
    }

    /// Takes an engine apart whose worker has ended.
    fn into_closed(self) -> Closed<D>
        requires { IsDown D.told self }
        ensures disks { ClosesDisks D.told D.fault_count self result.disks.items }
        ensures ledger { result.ledger
            ≡ record { total = self.pool.total; free = self.pool.total } }
    {
        let Engine {
            alloc: _,
            plan,
            allot: _,
            phase: _,
            mut pool,
            worker,
            place,
            disk,
            others: mut disks,
        } = self;
        no_worker(worker);
        let Some(mut disk) = disk else {
            unreachable!();
        };
        drop_place(&plan, &mut pool, place, &mut disk);
        let ledger = Ledger::of(&pool);
        pool.close();
        disks.push_reserved(disk);
        disks.reverse();
        Closed { disks, ledger }
    }
}

/// There is none. It does nothing, since a worker may not be let go.
fn no_worker<D: Spill>(worker: Option<Worker<D>>)
    requires { worker ≡ None }
{
    match worker {
        None => (),
        Some(_worker) => unreachable!(),
    }
}
