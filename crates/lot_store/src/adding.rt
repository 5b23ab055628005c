ghost use Rattle.std.specs.Prelude.{◌≡◌, ◌+◌, ◌^◌, ◌<◌, ◌≤◌, ◌∷◌, OnOk, length};
ghost use Rattle.flow_outside.specs.Blocks.{BothTold};
ghost use Rattle.flow_types.specs.Records.{framed};
ghost use Rattle.lot_store.specs.LotKeeping.{AddsFullPages, AddsRow, AddsText, Keeps, MovesSegments, PutsPage};
ghost use Rattle.lot_store.specs.Lots.{IsSound, held, pages_of};
ghost use Rattle.spool.specs.Spilling.{HasWriteCause};
ghost use Rattle.page_feed.specs.Feeds.{lent, stopped};
ghost use Rattle.paged_view.specs.Pages.{used_bytes};

use crate::lot::Lot;
use flow_outside::failure::StreamFault;
use flow_outside::spill::Spill;
use segment_core::{Purse, Segment};
use span_bytes::span::Span;

impl Lot {
    // `append`, told by this lot alone.
    pub(crate) fn add_row<X: Span, D: Spill>(
        &mut self,
        row: &X,
        purse: &mut Purse,
        disk: &mut D,
    ) -> Result<(), StreamFault>
        requires len { length (X.seen row.now) < 2 ^ 32 }
        requires supply { 0 < length purse.old.pages + (length (lent self.old.feed) + length (pages_of self.old).open_page) }
        requires room { length purse.old.pages + length (held self.old) ≤ purse.old.room }
        requires sound { IsSound (D.told disk.old) self.old purse.old.pages }
        ensures cause { HasWriteCause (D.fault_count disk.old) (D.fault_count disk.new) result }
        ensures added { OnOk result (BothTold (D.told disk.old) (D.told disk.new)
            (AddsText self.old self.new (framed (X.seen row.now)))) }
        ensures full { OnOk result (BothTold (D.told disk.old) (D.told disk.new)
            (AddsFullPages self.old self.new purse.old.pages)) }
        ensures rows { OnOk result (BothTold (D.told disk.old) (D.told disk.new)
            (AddsRow self.old self.new purse.old.pages (X.seen row.now))) }
        ensures keeps { BothTold (D.told disk.old) (D.told disk.new)
            (Keeps self.old self.new purse.old.pages purse.new.pages) }
        ensures sound { IsSound (D.told disk.new) self.new purse.new.pages }
        ensures segments { MovesSegments self.old self.new purse.old.pages purse.new.pages }
        ensures supply { OnOk result (0 < length purse.new.pages + length (pages_of self.new).open_page) }
        ensures room { purse.new.room ≡ purse.old.room }
        ensures fits { length purse.new.pages + length (held self.new) ≤ purse.new.room }
        ensures own { self.new.stored.room ≡ self.old.stored.room }
        ensures rest { self.new.feed ≡ stopped self.old.feed.room self.old.feed.reach }
    {
        self.stop(purse);
        self.stored.limits();
        let answer = self.stored.append(row, purse, disk);
        self.stored.limits();
        answer
    }

    // `append_page`, told by this lot alone.
    pub(crate) fn add_page<D: Spill>(
        &mut self,
        page: Segment,
        purse: &mut Purse,
        disk: &mut D,
    ) -> Result<(), StreamFault>
        requires room { length purse.old.pages + (length (held self.old) + 1) ≤ purse.old.room }
        requires sound { IsSound (D.told disk.old) self.old (page ∷ purse.old.pages) }
        ensures cause { HasWriteCause (D.fault_count disk.old) (D.fault_count disk.new) result }
        ensures added { OnOk result (BothTold (D.told disk.old) (D.told disk.new)
            (AddsText self.old self.new (used_bytes page))) }
        ensures pages { OnOk result (BothTold (D.told disk.old) (D.told disk.new) (PutsPage page self.old self.new)) }
        ensures keeps { BothTold (D.told disk.old) (D.told disk.new)
            (Keeps self.old self.new (page ∷ purse.old.pages) purse.new.pages) }
        ensures sound { IsSound (D.told disk.new) self.new purse.new.pages }
        ensures segments { MovesSegments self.old self.new (page ∷ purse.old.pages) purse.new.pages }
        ensures room { purse.new.room ≡ purse.old.room }
        ensures own { self.new.stored.room ≡ self.old.stored.room }
        ensures rest { self.new.feed ≡ stopped self.old.feed.room self.old.feed.reach }
    {
        self.stop(purse);
        self.stored.append_page(page, purse, disk)
    }
}
