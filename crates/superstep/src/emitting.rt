//! The rows of a result are read out of the lot that they lie in.
ghost use Rattle.std.specs.Prelude.{◌≡◌, ℕ, ◌≤◌, List, [], ◌∷◌, ◌++◌, Some, IfOk, IsErrOf, OnOk};
ghost use Rattle.std.specs.Prelude.{IsSome, length};
ghost use Rattle.flow_outside.specs.Told.{IfTold};
ghost use Rattle.flow_model.specs.Env.{Tuples};
ghost use Rattle.flow_model.specs.Rules.{IsPlan};
ghost use Rattle.flow_types.specs.Records.{IsRecord};
ghost use Rattle.lot_store.specs.LotCalls.{Reads};
ghost use Rattle.lot_store.specs.Lots.{IsRewound, held};
ghost use Rattle.lot_store.specs.Storage.{IsReady, alone};
ghost use Rattle.segment_core.specs.Segments.{PurseView};
ghost use Rattle.worker_storage.specs.Storages.{HoldsSome};
ghost use Rattle.worker_core.specs.Workers.{tuples_in};
ghost use Rattle.superstep.specs.Emitting.{AddsShown, HasReadingCause, IsLeftOf, KeepsPlace};
ghost use Rattle.superstep.specs.Emitting.{LiesAlone, of_stream};
ghost use Rattle.superstep.specs.Executing.{HoldsResult, result_in};
ghost use Rattle.superstep.specs.Opening.{IsAllFree};

use crate::faults::EmitFault;
use flow_model::plan::Plan;
use flow_outside::failure::{Memory, StreamFault};
use flow_outside::spill::Spill;
use flow_types::row::Row;
use flow_types::schema::Schema;
use lot_store::lot::Lot;
use paged_view::stream::RecordStream;
use plan_need::need::reach;
use record_codec::check::check_bytes;
use record_codec::decode::decode;
use segment_core::{Pool, Purse};
use std::alloc::Global;
use worker_core::worker::node_at;

/// The rows of a plan's result, in the order of its lot, read with segments that are leased for it.
/// The lot lies alone afterwards as it did, and all segments are free, whatever the answer.
pub(crate) fn lent_rows<D: Spill>(
    alloc: Global,
    plan: &Plan,
    place: &mut Lot,
    pool: &mut Pool,
    disk: &mut D,
) -> Result<Vec<Row>, EmitFault>
    requires rules { IsPlan plan.now }
    requires lies { LiesAlone plan.now (D.told disk.old) place.old }
    requires free { IsAllFree pool.old × (pool.old.size ≡ plan.now.segment) }
    requires holds { HoldsResult plan.now (D.told disk.old) place.old }
    ensures rows { IfOk result (λ rows. IfTold (D.told disk.old)
        (λ _. rows.items ≡ result_in plan.now (D.told disk.old) place.old)) }
    ensures keeps { KeepsPlace D.told D.fault_count plan.now disk.old disk.new place.old place.new
        pool.old pool.new }
    ensures cause { HasReadingCause (D.fault_count disk.old) (D.fault_count disk.new)
        (D.told disk.old) place.new result }
{
    let Some(node) = node_at(plan.nodes.as_slice(), plan.result) else {
        unreachable!();
    };
    let Ok(mut purse) = pool.lease(reach(plan)) else {
        return Err(EmitFault::Memory);
    };
    let rows = take_rows(alloc, &node.schema, place, &mut purse, disk);
    pool.restore(purse);
    rows
}

/// The same, with a purse. The lot holds no segment afterwards.
fn take_rows<D: Spill>(
    alloc: Global,
    schema: &Schema,
    place: &mut Lot,
    purse: &mut Purse,
    disk: &mut D,
) -> Result<Vec<Row>, EmitFault>
    requires supply { place.old.feed.reach ≤ length purse.old.pages }
    requires ready { IsReady (alone (D.told disk.old) purse.old place.old) }
    requires bare { (held place.old ≡ []) × (place.old.stored.room ≡ 0) }
    requires holds { IfTold (D.told disk.old) (HoldsSome schema.now place.old) }
    ensures rows { IfOk result (λ rows. IfTold (D.told disk.old)
        (λ _. rows.items ≡ tuples_in schema.now (D.told disk.old) place.old)) }
    ensures reads { Reads (D.told disk.old) (D.told disk.new) purse.old purse.new place.old
        place.new }
    ensures bare { held place.new ≡ [] }
    ensures tells { D.told disk.new ≡ D.told disk.old }
    ensures cause { HasReadingCause (D.fault_count disk.old) (D.fault_count disk.new)
        (D.told disk.old) place.new result }
{
    match place.rewind(purse, disk) {
        Ok(()) => {
            let rows = read_rows(alloc, schema, place, disk);
            match place.rest(purse, disk) {
                Ok(()) => rows,
                Err(fault) => Err(of_stream(fault)),
            }
        }
        Err(_) => unreachable!(),
    }
}

/// The rows that are left of a lot that is being read.
fn read_rows<D: Spill>(
    alloc: Global,
    schema: &Schema,
    place: &mut Lot,
    disk: &mut D,
) -> Result<Vec<Row>, EmitFault>
    requires ready { IsRewound place.old }
    requires left { IfTold (D.told disk.old)
        (λ _. (tuples : Tuples) × IsLeftOf schema.now place.old (D.told disk.old) tuples) }
    ensures rows { IfOk result (λ rows. (tuples : Tuples) →
        IsLeftOf schema.now place.old (D.told disk.old) tuples → rows.items ≡ tuples) }
    ensures reads { (purse : PurseView) →
        Reads (D.told disk.old) (D.told disk.new) purse purse place.old place.new }
    ensures tells { D.told disk.new ≡ D.told disk.old }
    ensures cause { HasReadingCause (D.fault_count disk.old) (D.fault_count disk.new)
        (D.told disk.old) place.new result }
{
    let mut rows = Vec::new(alloc);
    'records: loop {
        match place.read_next(disk) {
            Ok(true) => match push_shown::<D>(alloc, schema, place, &mut rows) {
                Ok(()) => (),
                Err(fault) => return Err(fault),
            },
            Ok(false) => return Ok(rows),
            Err(fault) => return Err(of_stream(fault)),
        }
    }
}

/// Adds the row that a lot shows, where its record is one of the schema.
fn push_shown<D: Spill>(
    alloc: Global,
    schema: &Schema,
    place: &Lot,
    rows: &mut Vec<Row>,
) -> Result<(), EmitFault>
    requires shown { IsSome place.now.feed.shown }
    ensures adds { OnOk result
        (AddsShown schema.now place.now.feed.shown rows.old.items rows.new.items) }
    ensures damaged { (worker block : ℕ) → IsErrOf result (EmitFault.Damaged worker block) →
        (worker ≡ 0) × (block ≡ place.now.read_last)
        × ((bytes : List ℕ) → place.now.feed.shown ≡ Some bytes → IsRecord schema.now bytes → ⊥) }
    ensures spill { (worker : ℕ) → IsErrOf result (EmitFault.Spill worker) → ⊥ }
    ensures silent { IsErrOf result EmitFault.Write → ⊥ }
{
    match RecordStream::<D>::head(place) {
        Some(row) => if check_bytes(&row, schema) {
            match decode(alloc, &row, schema) {
                Ok(row) => push_row(rows, row),
                Err(Memory) => Err(EmitFault::Memory),
            }
        } else {
            Err(EmitFault::Damaged {
                worker: 0,
                block: place.last_block(),
            })
        },
        None => unreachable!(),
    }
}

fn push_row(rows: &mut Vec<Row>, row: Row) -> Result<(), EmitFault>
    ensures pushed { OnOk result (rows.new.items ≡ rows.old.items ++ row ∷ []) }
    ensures fault { (fault : EmitFault) → IsErrOf result fault → fault ≡ EmitFault.Memory }
{
    match rows.push(row) {
        Ok(()) => Ok(()),
        Err(_) => Err(EmitFault::Memory),
    }
}

/// The first worker's stored rows can't be read.
fn of_stream(fault: StreamFault) -> EmitFault
    ensures { result ≡ of_stream fault }
{
    match fault {
        StreamFault::Spill => EmitFault::Spill { worker: 0 },
        StreamFault::Damaged { block } => EmitFault::Damaged { worker: 0, block },
    }
}
