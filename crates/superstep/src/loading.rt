//! An input's rows go into a worker's lot of their source.
ghost use Rattle.std.specs.Prelude.{◌≡◌, ℕ, [], ◌∷◌, Some, None, IfOk, OnOk};
ghost use Rattle.flow_model.specs.declared.plan.Node.{Node};
ghost use Rattle.flow_model.specs.Rules.{IsPlan, node_at};
ghost use Rattle.flow_outside.specs.Readers.{Lives, left_of, name_of};
ghost use Rattle.flow_outside.specs.Told.{IfTold};
ghost use Rattle.delim_io.specs.LinesLeft.{rows_ahead};
ghost use Rattle.worker_core.specs.Workers.{IsBeingFilled, IsFilling, IsSound, IsWorkerOf};
ghost use Rattle.worker_core.specs.Workers.{KeepsWorker};
ghost use Rattle.superstep.specs.Loading.{HasEnded, HasLoadCause, IsLinesOf, IsSource, KeepsShelf};
ghost use Rattle.superstep.specs.Loading.{StoresAll, first_lines, of_lines, rows_of_input};

use crate::faults::LoadFault;
use delim_io::line_reader::{LineFault, LineReader};
use flow_model::plan::{Node, Plan};
use flow_outside::failure::{Memory, StreamFault};
use flow_outside::shelf::Shelf;
use flow_outside::spill::Spill;
use std::alloc::Global;
use worker_core::worker::{Worker, node_at};

/// Reads reader `id` of a shelf from its first byte to its end, and stores each row in the worker's
/// lot of a source; it gives the number of rows. The lot rests afterwards, whatever the answer.
pub(crate) fn load_source<S: Shelf, D: Spill>(
    alloc: Global,
    plan: &Plan,
    source: u32,
    shelf: &mut S,
    id: u32,
    worker: &mut Worker<D>,
) -> Result<u64, LoadFault>
    requires rules { IsPlan plan.now }
    requires source { IsSource plan.now source }
    requires sound { IsSound D.told plan.now worker.old }
    requires lives { Lives (S.readers shelf.old) id }
    ensures worker { IsWorkerOf D.told plan.now worker.new }
    ensures sound { OnOk result (IsSound D.told plan.now worker.new) }
    ensures stores { IfOk result (λ count. IfTold (left_of (S.readers shelf.old id)) (λ bytes.
        (node : Node) → node_at plan.now.nodes source ≡ Some node →
        StoresAll D.told plan.now.nodes source (rows_of_input node bytes) count worker.old
        worker.new)) }
    ensures ended { OnOk result
        (HasEnded (S.readers shelf.new) (S.living shelf.old) (S.living shelf.new) id) }
    ensures shelf { KeepsShelf (S.told shelf.old) (S.told shelf.new) (S.faults_at shelf.old)
        (S.faults_at shelf.new) (S.readers shelf.old) (S.readers shelf.new) id }
    ensures keeps { KeepsWorker D.told worker.old worker.new (source ∷ []) (source ∷ []) }
    ensures cause { let name = name_of (S.readers shelf.old id) in
        HasLoadCause (D.fault_count worker.old.storage.disk) (D.fault_count worker.new.storage.disk)
        (S.faults_at shelf.old name) (S.faults_at shelf.new name)
        (IfTold (left_of (S.readers shelf.old id)) (λ bytes. (node : Node) →
        node_at plan.now.nodes source ≡ Some node → rows_of_input node bytes ≡ None)) result }
{
    match node_at(plan.nodes.as_slice(), source) {
        Some(node) => match open_lines(alloc, node) {
            Ok(mut lines) => load_rows(plan, source, &mut lines, shelf, id, worker),
            Err(Memory) => Err(LoadFault::Memory),
        },
        None => unreachable!(),
    }
}

/// A reader of a source's lines.
fn open_lines(alloc: Global, node: &Node) -> Result<LineReader, Memory>
    ensures { IfOk result (λ lines. lines ≡ first_lines node.now) }
{
    let schema = node.schema.copy(alloc)?;
    LineReader::open(alloc, schema, node.op.delimiter())
}

/// Stores all rows that a reader of lines has left, and brings the lot to rest, whatever the
/// answer.
fn load_rows<S: Shelf, D: Spill>(
    plan: &Plan,
    source: u32,
    lines: &mut LineReader,
    shelf: &mut S,
    id: u32,
    worker: &mut Worker<D>,
) -> Result<u64, LoadFault>
    requires rules { IsPlan plan.now }
    requires lines { IsLinesOf plan.now source lines.old }
    requires sound { IsSound D.told plan.now worker.old }
    requires lives { Lives (S.readers shelf.old) id }
    ensures worker { IsWorkerOf D.told plan.now worker.new }
    ensures sound { OnOk result (IsSound D.told plan.now worker.new) }
    ensures stores { IfOk result (λ count. IfTold (left_of (S.readers shelf.old id)) (λ left.
        StoresAll D.told plan.now.nodes source (rows_ahead lines.old left) count worker.old
        worker.new)) }
    ensures ended { OnOk result
        (HasEnded (S.readers shelf.new) (S.living shelf.old) (S.living shelf.new) id) }
    ensures shelf { KeepsShelf (S.told shelf.old) (S.told shelf.new) (S.faults_at shelf.old)
        (S.faults_at shelf.new) (S.readers shelf.old) (S.readers shelf.new) id }
    ensures keeps { KeepsWorker D.told worker.old worker.new (source ∷ []) (source ∷ []) }
    ensures cause { let name = name_of (S.readers shelf.old id) in
        HasLoadCause (D.fault_count worker.old.storage.disk) (D.fault_count worker.new.storage.disk)
        (S.faults_at shelf.old name) (S.faults_at shelf.new name)
        (IfTold (left_of (S.readers shelf.old id)) (λ left. rows_ahead lines.old left ≡ None))
        result }
{
    let stored = store_rows(plan, source, lines, shelf, id, worker);
    let rested = worker.rest_lot(plan, source);
    match stored {
        Ok(count) => match rested {
            Ok(()) => Ok(count),
            Err(fault) => Err(of_disk(fault)),
        },
        Err(fault) => Err(fault),
    }
}

/// Stores all rows that a reader of lines has left. The lot may hold an open page afterwards.
fn store_rows<S: Shelf, D: Spill>(
    plan: &Plan,
    source: u32,
    lines: &mut LineReader,
    shelf: &mut S,
    id: u32,
    worker: &mut Worker<D>,
) -> Result<u64, LoadFault>
    requires rules { IsPlan plan.now }
    requires lines { IsLinesOf plan.now source lines.old }
    requires filling { IsFilling D.told plan.now source worker.old }
    requires lives { Lives (S.readers shelf.old) id }
    ensures filled { IsBeingFilled D.told plan.now source worker.new }
    ensures filling { OnOk result (IsFilling D.told plan.now source worker.new) }
    ensures stores { IfOk result (λ count. IfTold (left_of (S.readers shelf.old id)) (λ left.
        StoresAll D.told plan.now.nodes source (rows_ahead lines.old left) count worker.old
        worker.new)) }
    ensures ended { OnOk result
        (HasEnded (S.readers shelf.new) (S.living shelf.old) (S.living shelf.new) id) }
    ensures shelf { KeepsShelf (S.told shelf.old) (S.told shelf.new) (S.faults_at shelf.old)
        (S.faults_at shelf.new) (S.readers shelf.old) (S.readers shelf.new) id }
    ensures keeps { KeepsWorker D.told worker.old worker.new (source ∷ []) (source ∷ []) }
    ensures cause { let name = name_of (S.readers shelf.old id) in
        HasLoadCause (D.fault_count worker.old.storage.disk) (D.fault_count worker.new.storage.disk)
        (S.faults_at shelf.old name) (S.faults_at shelf.new name)
        (IfTold (left_of (S.readers shelf.old id)) (λ left. rows_ahead lines.old left ≡ None))
        result }
{
    let mut count: u64 = 0;
    'lines: loop {
        match lines.advance(shelf, id) {
            Ok(true) => match worker.store_row(plan, source, &lines.record()) {
                Ok(()) => count += 1,
                Err(fault) => return Err(of_disk(fault)),
            },
            Ok(false) => return Ok(count),
            Err(fault) => return Err(of_lines(fault)),
        }
    }
}

/// The first worker's disk failed while a lot was written.
fn of_disk(fault: StreamFault) -> LoadFault
    requires { (block : ℕ) → fault ≡ StreamFault.Damaged block → ⊥ }
    ensures { result ≡ LoadFault.Spill 0 }
{
    match fault {
        StreamFault::Spill => LoadFault::Spill { worker: 0 },
        StreamFault::Damaged { .. } => unreachable!(),
    }
}

fn of_lines(fault: LineFault) -> LoadFault
    ensures { result ≡ of_lines fault }
{
    match fault {
        LineFault::Memory => LoadFault::Memory,
        LineFault::Read => LoadFault::Read,
        LineFault::Bad { line, field, kind } => LoadFault::Input { line, field, kind },
    }
}
