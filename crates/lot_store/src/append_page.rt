ghost use Rattle.std.specs.Prelude.{◌≡◌, ◌+◌, ◌<◌, ◌≤◌, [], ◌∷◌, ◌++◌, OnOk, length};
ghost use Rattle.flow_outside.specs.Blocks.{BothTold};
ghost use Rattle.lot_store.specs.Keeping.{AddsPages, AddsText, Keeps, MovesSegments, PutsPage};
ghost use Rattle.page_feed.specs.Reach.{sizes_of};
ghost use Rattle.lot_store.specs.Stores.{IsSound, held};
ghost use Rattle.spool.specs.Spilling.{HasWriteCause};
ghost use Rattle.paged_view.specs.Pages.{body, used_bytes, used};

use crate::stored::StoredPages;
use flow_outside::failure::StreamFault;
use flow_outside::spill::Spill;
use paged_view::fill::trim;
use segment_core::{Purse, Segment};

impl StoredPages {
    /// Adds a page's used bytes behind the lot's: all that stand behind its header, where the header says more.
    /// It copies no byte of them. The page becomes the one under way, and the one that was is kept or spilled;
    /// a page of which no byte is used goes to the purse.
    ///
    /// `Spill` only where the disk's count of faults rose in this call; what the lot stands for is then open.
    pub(crate) fn append_page<D: Spill>(
        &mut self,
        page: Segment,
        purse: &mut Purse,
        disk: &mut D,
    ) -> Result<(), StreamFault>
        requires room { length purse.old.pages + (length (held self.old) + 1) ≤ purse.old.room }
        requires sound { IsSound (D.told disk.old) self.old (page ∷ purse.old.pages) }
        ensures cause { HasWriteCause (D.fault_count disk.old) (D.fault_count disk.new) result }
        ensures added { OnOk result (BothTold (D.told disk.old) (D.told disk.new)
            (AddsText self.old self.new (used_bytes page))) }
        ensures pages { OnOk result (BothTold (D.told disk.old) (D.told disk.new) (PutsPage page self.old self.new)) }
        ensures keeps { BothTold (D.told disk.old) (D.told disk.new)
            (Keeps self.old self.new (page ∷ purse.old.pages) purse.new.pages) }
        ensures sound { IsSound (D.told disk.new) self.new purse.new.pages }
        ensures segments { MovesSegments self.old self.new (page ∷ purse.old.pages) purse.new.pages }
        ensures room { purse.new.room ≡ purse.old.room }
        ensures own { self.new.room ≡ self.old.room }
    {
        let mut page = page;
        if trim(&mut page) == 0 {
            purse.put(page);
            return Ok(());
        }
        self.push_page(page, purse, disk)
    }

    // The same, of a page of which some bytes are used and no more than it has.
    fn push_page<D: Spill>(
        &mut self,
        page: Segment,
        purse: &mut Purse,
        disk: &mut D,
    ) -> Result<(), StreamFault>
        requires some { 0 < used page }
        requires within { used page ≤ length (body page) }
        requires room { length purse.old.pages + (length (held self.old) + 1) ≤ purse.old.room }
        requires sound { IsSound (D.told disk.old) self.old (page ∷ purse.old.pages) }
        ensures cause { HasWriteCause (D.fault_count disk.old) (D.fault_count disk.new) result }
        ensures added { OnOk result (BothTold (D.told disk.old) (D.told disk.new)
            (AddsText self.old self.new (used_bytes page))) }
        ensures pages { OnOk result (BothTold (D.told disk.old) (D.told disk.new)
            (AddsPages self.old self.new (sizes_of self.old.open_page))) }
        ensures open_page { OnOk result (self.new.open_page ≡ page ∷ []) }
        ensures keeps { BothTold (D.told disk.old) (D.told disk.new)
            (Keeps self.old self.new (page ∷ purse.old.pages) purse.new.pages) }
        ensures segments { MovesSegments self.old self.new (page ∷ purse.old.pages) purse.new.pages }
        ensures room { purse.new.room ≡ purse.old.room }
        ensures own { self.new.room ≡ self.old.room }
    {
        match self.take_last() {
            Some(open_page) => self.push_behind(open_page, page, purse, disk),
            None => {
                self.put_last(page);
                Ok(())
            }
        }
    }

    // Stores the page that was under way, and makes another the one under way.
    fn push_behind<D: Spill>(
        &mut self,
        open_page: Segment,
        page: Segment,
        purse: &mut Purse,
        disk: &mut D,
    ) -> Result<(), StreamFault>
        requires last_some { 0 < used open_page }
        requires last_within { used open_page ≤ length (body open_page) }
        requires some { 0 < used page }
        requires within { used page ≤ length (body page) }
        requires none { self.old.open_page ≡ [] }
        requires room { length purse.old.pages + (length (held self.old) + 2) ≤ purse.old.room }
        requires sound { IsSound (D.told disk.old) self.old (page ∷ open_page ∷ purse.old.pages) }
        ensures cause { HasWriteCause (D.fault_count disk.old) (D.fault_count disk.new) result }
        ensures added { OnOk result (BothTold (D.told disk.old) (D.told disk.new)
            (AddsText self.old self.new (used_bytes open_page ++ used_bytes page))) }
        ensures pages { OnOk result (BothTold (D.told disk.old) (D.told disk.new)
            (AddsPages self.old self.new (length (used_bytes open_page) ∷ []))) }
        ensures open_page { OnOk result (self.new.open_page ≡ page ∷ []) }
        ensures keeps { BothTold (D.told disk.old) (D.told disk.new)
            (Keeps self.old self.new (page ∷ open_page ∷ purse.old.pages) purse.new.pages) }
        ensures segments { MovesSegments self.old self.new (page ∷ open_page ∷ purse.old.pages) purse.new.pages }
        ensures room { purse.new.room ≡ purse.old.room }
        ensures own { self.new.room ≡ self.old.room }
    {
        match self.store(open_page, purse, disk) {
            Ok(()) => {
                self.put_last(page);
                Ok(())
            }
            Err(fault) => {
                purse.put(page);
                Err(fault)
            }
        }
    }
}
