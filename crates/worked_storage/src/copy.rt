ghost use Rattle.std.specs.Prelude.{◌≡◌, [], ◌∷◌, ◌++◌, true, OnOk, length};
ghost use Rattle.flow_outside.specs.Blocks.{BothTold};
ghost use Rattle.flow_outside.specs.Told.{IfTold};
ghost use Rattle.lot_store.specs.Lots.{LotView, held};
ghost use Rattle.lot_store.specs.Rows.{Gains, rows_of};
ghost use Rattle.lot_store.specs.Storage.{lot_at};
ghost use Rattle.row_pipe.specs.Pipes.{GivesWithin};
ghost use Rattle.worked_storage.specs.Copies.{MayCopy};
ghost use Rattle.worker_storage.specs.Storages.{HoldsSome, KeepsStorage, given};

use expr_core::scratch::Scratch;
use flow_outside::failure::StreamFault;
use flow_outside::spill::Spill;
use row_pipe::row_pipe::RowPipe;
use worker_storage::WorkerStorage;

/// Adds the rows that are given of the rows of the first two of three lots behind those of the
/// third.
pub fn copy_both<D: Spill>(
    storage: &mut WorkerStorage<D>,
    p: &RowPipe,
    s: &mut Scratch,
) -> Result<(), StreamFault>
    requires three { length storage.old.lots ≡ 3 }
    requires may { (d : LotView) → MayCopy storage.old.purse storage.old.lots d }
    requires within { (d : LotView) →
        GivesWithin p.now.takes p.now.work storage.old.size
        (lot_at storage.old.lots 2 d).feed.reach }
    requires holds { (d : LotView) → IfTold (D.told storage.old.disk) (HoldsSome p.now.takes
        (lot_at storage.old.lots 0 d)) }
    requires other { (d : LotView) → IfTold (D.told storage.old.disk) (HoldsSome p.now.takes
        (lot_at storage.old.lots 1 d)) }
    ensures rows { (d : LotView) → OnOk result (BothTold (D.told storage.old.disk)
        (D.told storage.new.disk)
        (Gains (lot_at storage.old.lots 2 d) (lot_at storage.new.lots 2 d)
        (given p.now.takes p.now.work (rows_of (D.told storage.old.disk)
        (lot_at storage.old.lots 0 d))
        ++ given p.now.takes p.now.work (rows_of (D.told storage.old.disk)
        (lot_at storage.old.lots 1 d))))) }
    ensures keeps { KeepsStorage D.told storage.old storage.new (0 ∷ 1 ∷ 2 ∷ []) (2 ∷ []) true }
{
    // The storage stands together, for the prover alone.
    storage.limits();
    match storage.pipe(p, 0, 2, s) {
        Ok(()) => storage.pipe(p, 1, 2, s),
        Err(fault) => Err(fault),
    }
}
