ghost use Rattle.std.specs.Prelude.{◌≡◌, ◌+◌, ◌<◌, ◌≤◌, ℕ, [], None, Ok, IsErrOf, OnOk, IsSome, length};
ghost use Rattle.flow_outside.specs.Blocks.{BothTold};
ghost use Rattle.flow_outside.specs.Causes.{HasStreamCause};
ghost use Rattle.lot_store.specs.LotKeeping.{AddsText, Keeps, KeepsOthers, KeepsRows, MovesSegments};
ghost use Rattle.lot_store.specs.LotCalls.{spilled_count};
ghost use Rattle.lot_store.specs.Lots.{IsSound, held, pages_of};
ghost use Rattle.spool.specs.Spilling.{FreesBlocks, HasWriteCause, IsDamagedIn};
ghost use Rattle.page_feed.specs.Feeds.{lent, stopped};

use crate::lot::Lot;
use flow_outside::failure::StreamFault;
use flow_outside::spill::Spill;
use segment_core::Purse;

impl Lot {
    // `rest`, told by this lot alone.
    pub(crate) fn come_to_rest<D: Spill>(
        &mut self,
        purse: &mut Purse,
        disk: &mut D,
    ) -> Result<(), StreamFault>
        requires room { length purse.old.pages + length (held self.old) ≤ purse.old.room }
        requires sound { IsSound (D.told disk.old) self.old purse.old.pages }
        ensures cause { HasWriteCause (D.fault_count disk.old) (D.fault_count disk.new) result }
        ensures same { OnOk result (BothTold (D.told disk.old) (D.told disk.new) (AddsText self.old self.new [])) }
        ensures rows { OnOk result (BothTold (D.told disk.old) (D.told disk.new) (KeepsRows self.old self.new)) }
        ensures rests { length (held self.new) ≤ self.new.stored.room }
        ensures nothing { length (held self.old) ≤ self.old.stored.room + length (lent self.old.feed) →
            (pages_of self.new ≡ pages_of self.old) × (D.told disk.new ≡ D.told disk.old) }
        ensures keeps { BothTold (D.told disk.old) (D.told disk.new)
            (Keeps self.old self.new purse.old.pages purse.new.pages) }
        ensures sound { IsSound (D.told disk.new) self.new purse.new.pages }
        ensures segments { MovesSegments self.old self.new purse.old.pages purse.new.pages }
        ensures room { purse.new.room ≡ purse.old.room }
        ensures fits { length purse.new.pages + length (held self.new) ≤ purse.new.room }
        ensures own { self.new.stored.room ≡ self.old.stored.room }
        ensures rest { self.new.feed ≡ stopped self.old.feed.room self.old.feed.reach }
        ensures last { self.new.read_last ≡ self.old.read_last }
    {
        self.stop(purse);
        self.stored.rest(purse, disk)
    }

    // `drop_lot`, told by this lot alone.
    pub(crate) fn give_up<D: Spill>(
        &mut self,
        purse: &mut Purse,
        disk: &mut D,
    ) -> Result<(), StreamFault>
        requires supply { IsSome self.old.stored.run → 0 < length purse.old.pages + length (held self.old) }
        requires room { length purse.old.pages + length (held self.old) ≤ purse.old.room }
        requires sound { IsSound (D.told disk.old) self.old purse.old.pages }
        ensures cause { HasStreamCause (D.fault_count disk.old) (D.fault_count disk.new) (D.told disk.old) result }
        ensures empty { held self.new ≡ [] }
        ensures none { self.new.stored.run ≡ None }
        ensures freed { OnOk result (BothTold (D.told disk.old) (D.told disk.new) (FreesBlocks self.old.stored.run)) }
        ensures keeps { BothTold (D.told disk.old) (D.told disk.new)
            (KeepsOthers self.old self.new purse.old.pages purse.new.pages) }
        ensures sound { IsSound (D.told disk.new) self.new purse.new.pages }
        ensures segments { MovesSegments self.old self.new purse.old.pages purse.new.pages }
        ensures room { purse.new.room ≡ purse.old.room }
        ensures own { self.new.stored.room ≡ self.old.stored.room }
        ensures rest { self.new.feed ≡ stopped self.old.feed.room self.old.feed.reach }
        ensures damaged { (block : ℕ) → IsErrOf result (StreamFault.Damaged block) →
            IsDamagedIn self.old.stored.run block }
        ensures seat { self.old.feed.room ≡ self.old.stored.room }
        ensures forgot { self.new.read_last ≡ 0 }
        ensures quiet { spilled_count self.old.stored.run ≡ 0 → (disk.new ≡ disk.old) × (result ≡ Ok tt) }
    {
        self.stop(purse);
        self.last_block = 0;
        self.stored.limits();
        self.stored.drop_lot(purse, disk)
    }
}
