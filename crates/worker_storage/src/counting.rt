//! How many records a lot has, told by this lot alone.
ghost use Rattle.std.specs.Prelude.{◌≡◌, ℕ, ◌≤◌, List, IfOk, IsErrOf, length};
ghost use Rattle.flow_outside.specs.Causes.{HasStreamCause};
ghost use Rattle.flow_outside.specs.Told.{IfTold};
ghost use Rattle.lot_store.specs.LotCalls.{Reads};
ghost use Rattle.lot_store.specs.Lots.{IsLeft, IsRewound, held};
ghost use Rattle.lot_store.specs.Rows.{IsWhole, rows_in};
ghost use Rattle.lot_store.specs.Storage.{IsReady, alone};
ghost use Rattle.paged_view.specs.Streams.{KnowsRows};
ghost use Rattle.segment_core.specs.Segments.{PurseView};
ghost use Rattle.worker_storage.specs.Storages.{HasCountCause, MayRead, row_count};

use flow_outside::failure::StreamFault;
use flow_outside::spill::Spill;
use lot_store::lot::Lot;
use segment_core::Purse;

/// How many records a lot has. It is at rest before and, whatever the answer, afterwards, and each of its
/// pages is read once.
pub(crate) fn count_rows<D: Spill>(
    lot: &mut Lot,
    purse: &mut Purse,
    disk: &mut D,
) -> Result<u64, StreamFault>
    requires may { MayRead purse.old lot.old }
    requires ready { IsReady (alone (D.told disk.old) purse.old lot.old) }
    requires whole { IfTold (D.told disk.old) (λ blocks. IsWhole blocks lot.old) }
    ensures count { IfOk result (λ count. IfTold (D.told disk.old)
        (λ blocks. count ≡ row_count (rows_in blocks lot.old))) }
    ensures reads { Reads (D.told disk.old) (D.told disk.new) purse.old purse.new lot.old lot.new }
    ensures cause { HasCountCause (D.fault_count disk.old) (D.fault_count disk.new)
        (D.told disk.old) lot.new result }
    ensures rests { length (held lot.new) ≤ lot.new.stored.room }
{
    match lot.rewind(purse, disk) {
        Ok(()) => {
            let answer = count_left(lot, disk);
            match lot.rest(purse, disk) {
                Ok(()) => answer,
                Err(fault) => Err(fault),
            }
        }
        Err(fault) => Err(fault),
    }
}

/// How many records are left of a lot that is being read.
fn count_left<D: Spill>(lot: &mut Lot, disk: &mut D) -> Result<u64, StreamFault>
    requires ready { IsRewound lot.old }
    requires known { KnowsRows (D.told disk.old) (IsLeft lot.old (D.told disk.old)) }
    ensures count { IfOk result (λ count. (rows : List (List ℕ)) →
        IsLeft lot.old (D.told disk.old) rows → count ≡ row_count rows) }
    ensures reads { (purse : PurseView) →
        Reads (D.told disk.old) (D.told disk.new) purse purse lot.old lot.new }
    ensures cause { HasStreamCause (D.fault_count disk.old) (D.fault_count disk.new)
        (D.told disk.old) result }
    ensures damaged { (block : ℕ) → IsErrOf result (StreamFault.Damaged block) →
        block ≡ lot.new.read_last }
    ensures tells { D.told disk.new ≡ D.told disk.old }
{
    let mut count: u64 = 0;
    'rows: loop {
        match lot.read_next(disk) {
            Ok(true) => count = count.saturating_add(1),
            Ok(false) => return Ok(count),
            Err(fault) => return Err(fault),
        }
    }
}
