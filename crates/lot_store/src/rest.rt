ghost use Rattle.std.specs.Prelude.{◌≡◌, ℕ, List, IsErrOf, ◌+◌, ◌<◌, ◌≤◌, [], None, Ok, OnOk, IsSome, length};
ghost use Rattle.flow_outside.specs.Blocks.{BothTold};
ghost use Rattle.flow_outside.specs.Causes.{HasStreamCause};
ghost use Rattle.flow_outside.specs.Told.{IfTold};
ghost use Rattle.lot_store.specs.Keeping.{AddsText, Keeps, KeepsOthers, KeepsSizes, MovesSegments};
ghost use Rattle.lot_store.specs.Stores.{IsSound, held};
ghost use Rattle.spool.specs.Spilling.{FreesBlocks, HasWriteCause, IsDamagedIn, StandsAlone};
ghost use Rattle.segment_core.specs.Segments.{segment_sum};
ghost use Rattle.spool.specs.Reading.{IsDamagedAt};
ghost use Rattle.spool.specs.Changes.{IsFreed, ForeignBlocksUnchanged as LeavesBut};

use crate::stored::StoredPages;
use flow_outside::failure::StreamFault;
use flow_outside::spill::Spill;
use segment_core::Purse;
use spool::discard::discard;
use spool::run::Run;

impl StoredPages {
    /// Leaves at most `room` segments in the lot, whatever it answers. It spills the open page exactly
    /// where the lot holds more, with one write, and else does nothing.
    ///
    /// `Spill` only where the disk's count of faults rose in this call; what the lot stands for is then open.
    pub(crate) fn rest<D: Spill>(
        &mut self,
        purse: &mut Purse,
        disk: &mut D,
    ) -> Result<(), StreamFault>
        requires room { length purse.old.pages + length (held self.old) ≤ purse.old.room }
        requires sound { IsSound (D.told disk.old) self.old purse.old.pages }
        ensures cause { HasWriteCause (D.fault_count disk.old) (D.fault_count disk.new) result }
        ensures same { OnOk result (BothTold (D.told disk.old) (D.told disk.new) (AddsText self.old self.new [])) }
        ensures sizes { OnOk result (BothTold (D.told disk.old) (D.told disk.new) (KeepsSizes self.old self.new)) }
        ensures rests { length (held self.new) ≤ self.new.room }
        ensures nothing { length (held self.old) ≤ self.old.room →
            (self.new ≡ self.old) × ((purse.new ≡ purse.old) × (D.told disk.new ≡ D.told disk.old)) }
        ensures keeps { BothTold (D.told disk.old) (D.told disk.new)
            (Keeps self.old self.new purse.old.pages purse.new.pages) }
        ensures sound { IsSound (D.told disk.new) self.new purse.new.pages }
        ensures segments { MovesSegments self.old self.new purse.old.pages purse.new.pages }
        ensures room { purse.new.room ≡ purse.old.room }
        ensures fits { length purse.new.pages + length (held self.new) ≤ purse.new.room }
        ensures own { self.new.room ≡ self.old.room }
    {
        if self.fits_room() {
            return Ok(());
        }
        match self.take_last() {
            Some(page) => self.spill_out(page, purse, disk),
            None => unreachable!(),
        }
    }

    /// Empties the lot: its segments go to the purse, and the blocks of its spilled pages end. It reads each
    /// spilled page once.
    ///
    /// `Spill` only where the disk's count of faults rose in this call, `Damaged` only over a disk that
    /// doesn't tell. The segments are then in the purse too, and each of the lot's blocks is free or as it was.
    pub(crate) fn drop_lot<D: Spill>(
        &mut self,
        purse: &mut Purse,
        disk: &mut D,
    ) -> Result<(), StreamFault>
        requires supply { IsSome self.old.run → 0 < length purse.old.pages + length (held self.old) }
        requires room { length purse.old.pages + length (held self.old) ≤ purse.old.room }
        requires sound { IsSound (D.told disk.old) self.old purse.old.pages }
        ensures cause { HasStreamCause (D.fault_count disk.old) (D.fault_count disk.new) (D.told disk.old) result }
        ensures empty { held self.new ≡ [] }
        ensures none { self.new.run ≡ None }
        ensures freed { OnOk result (BothTold (D.told disk.old) (D.told disk.new) (FreesBlocks self.old.run)) }
        ensures keeps { BothTold (D.told disk.old) (D.told disk.new)
            (KeepsOthers self.old self.new purse.old.pages purse.new.pages) }
        ensures sound { IsSound (D.told disk.new) self.new purse.new.pages }
        ensures segments { MovesSegments self.old self.new purse.old.pages purse.new.pages }
        ensures room { purse.new.room ≡ purse.old.room }
        ensures own { self.new.room ≡ self.old.room }
        ensures damaged { (block : ℕ) → IsErrOf result (StreamFault.Damaged block) →
            IsDamagedIn self.old.run block }
        ensures quiet { self.old.run ≡ None → (disk.new ≡ disk.old) × (result ≡ Ok tt) }
    {
        self.give_all(purse);
        match self.take_run() {
            Some(writer) => end_run(writer.close(), purse, disk),
            None => Ok(()),
        }
    }
}

// Ends a run, with a segment of the purse, which goes back.
fn end_run<D: Spill>(run: Run, purse: &mut Purse, disk: &mut D) -> Result<(), StreamFault>
    requires supply { 0 < length purse.old.pages }
    requires stands { IfTold (D.told disk.old) (StandsAlone run purse.old.pages) }
    ensures cause { HasStreamCause (D.fault_count disk.old) (D.fault_count disk.new) (D.told disk.old) result }
    ensures freed { OnOk result (BothTold (D.told disk.old) (D.told disk.new) (IsFreed run)) }
    ensures others { BothTold (D.told disk.old) (D.told disk.new) (LeavesBut run) }
    ensures segments { (h : ℕ → ℕ → ℕ) → segment_sum h purse.new.pages ≡ segment_sum h purse.old.pages }
    ensures room { purse.new.room ≡ purse.old.room }
    ensures damaged { (block : ℕ) → IsErrOf result (StreamFault.Damaged block) → (page : List ℕ) ×
        IsDamagedAt run block page }
{
    match purse.take() {
        Some(page) => {
            let mut page = page;
            let answer = discard(run, disk, &mut page);
            purse.put(page);
            answer
        }
        None => unreachable!(),
    }
}
