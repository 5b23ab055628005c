//! Rows of one lot that go to another.
ghost use Rattle.std.specs.Prelude.{◌≡◌, ◌≢◌, ◌<◌, ◌≤◌, [], ◌∷◌, true, OnOk, length};
ghost use Rattle.flow_outside.specs.Blocks.{BothTold};
ghost use Rattle.flow_outside.specs.Told.{IfTold};
ghost use Rattle.lot_store.specs.Lots.{LotView, held};
ghost use Rattle.lot_store.specs.Rows.{Gains, rows_of};
ghost use Rattle.lot_store.specs.Storage.{IsReadyAt, lot_at};
ghost use Rattle.row_pipe.specs.Pipes.{GivesWithin, HasPassCause};
ghost use Rattle.worker_storage.specs.Storages.{HoldsSome, KeepsStorage, MayRead, given, view_of};

use expr_core::scratch::Scratch;
use flow_outside::failure::StreamFault;
use flow_outside::spill::Spill;
use row_pipe::row_pipe::RowPipe;
use worker_storage::WorkerStorage;

/// `WorkerStorage::pipe`, after which both lots rest, whatever the answer.
pub(crate) fn pipe_to_rest<D: Spill>(
    storage: &mut WorkerStorage<D>,
    p: &RowPipe,
    from: usize,
    to: usize,
    s: &mut Scratch,
) -> Result<(), StreamFault>
    requires there { (from < length storage.old.lots) × (to < length storage.old.lots) × (from ≢
        to) }
    requires may { (d : LotView) → MayRead storage.old.purse (lot_at storage.old.lots from d) }
    requires within { (d : LotView) → GivesWithin p.now.takes p.now.work storage.old.size
        (lot_at storage.old.lots to d).feed.reach }
    requires holds { (d : LotView) → IfTold (D.told storage.old.disk) (HoldsSome p.now.takes
        (lot_at storage.old.lots from d)) }
    ensures rows { (d : LotView) → OnOk result (BothTold (D.told storage.old.disk)
        (D.told storage.new.disk)
        (Gains (lot_at storage.old.lots to d) (lot_at storage.new.lots to d)
        (given p.now.takes p.now.work (rows_of (D.told storage.old.disk)
        (lot_at storage.old.lots from d))))) }
    ensures keeps { KeepsStorage D.told storage.old storage.new (from ∷ to ∷ []) (to ∷ []) true }
    ensures cause { (d : LotView) → HasPassCause (D.fault_count storage.old.disk)
        (D.fault_count storage.new.disk)
        (D.told storage.old.disk) (lot_at storage.new.lots from d) result }
    ensures read { (d : LotView) → length (held (lot_at storage.new.lots from d)) ≤
        (lot_at storage.new.lots from d).stored.room }
    ensures written { (d : LotView) → length (held (lot_at storage.new.lots to d)) ≤
        (lot_at storage.new.lots to d).stored.room }
    ensures stood { IsReadyAt storage.old.size (view_of D.told storage.old) }
{
    // All of it stands together, for the prover alone.
    storage.limits();
    match storage.pipe(p, from, to, s) {
        Ok(()) => Ok(()),
        Err(fault) => {
            let _at_rest = storage.rest(to);
            Err(fault)
        }
    }
}
