ghost use Rattle.std.specs.Prelude.{◌≡◌, ℕ, ◌+◌, ◌<◌, ◌≤◌, [], ◌∷◌, ◌++◌, IfOk, OnOk, length, take};
ghost use Rattle.flow_outside.specs.Blocks.{BothTold};
ghost use Rattle.lot_store.specs.Keeping.{AddsFullPages, AddsPages, AddsText, Keeps, MovesSegments, Trades, in_hand};
ghost use Rattle.lot_store.specs.Stores.{IsSound, held};
ghost use Rattle.spool.specs.Spilling.{HasWriteCause};
ghost use Rattle.paged_view.specs.Pages.{body, used_bytes, all_used_bytes, used};
ghost use Rattle.segment_core.specs.Segments.{segment_sum};

use crate::stored::StoredPages;
use flow_outside::failure::StreamFault;
use flow_outside::spill::Spill;
use paged_view::fill::{add_bytes, clear, has_space};
use paged_view::page::body_of;
use segment_core::{Purse, Segment};

impl StoredPages {
    /// Puts a page behind those before it: it is kept, where no page was spilled yet, there is room for it and
    /// the purse has another segment, and else it is spilled, and its segment goes to the purse.
    pub(crate) fn store<D: Spill>(
        &mut self,
        page: Segment,
        purse: &mut Purse,
        disk: &mut D,
    ) -> Result<(), StreamFault>
        requires some { 0 < used page }
        requires within { used page ≤ length (body page) }
        requires open_page { self.old.open_page ≡ [] }
        requires room { length purse.old.pages + (length (held self.old) + 1) ≤ purse.old.room }
        requires sound { IsSound (D.told disk.old) self.old (page ∷ purse.old.pages) }
        ensures cause { HasWriteCause (D.fault_count disk.old) (D.fault_count disk.new) result }
        ensures added { OnOk result (BothTold (D.told disk.old) (D.told disk.new)
            (AddsText self.old self.new (used_bytes page))) }
        ensures pages { OnOk result (BothTold (D.told disk.old) (D.told disk.new)
            (AddsPages self.old self.new (length (used_bytes page) ∷ []))) }
        ensures keeps { BothTold (D.told disk.old) (D.told disk.new)
            (Keeps self.old self.new (page ∷ purse.old.pages) purse.new.pages) }
        ensures sound { IsSound (D.told disk.new) self.new purse.new.pages }
        ensures segments { MovesSegments self.old self.new (page ∷ purse.old.pages) purse.new.pages }
        ensures supply { OnOk result (0 < length purse.new.pages) }
        ensures open_page { self.new.open_page ≡ [] }
        ensures room { purse.new.room ≡ purse.old.room }
        ensures own { self.new.room ≡ self.old.room }
    {
        if self.may_keep(purse) {
            self.keep(page);
            return Ok(());
        }
        self.spill_out(page, purse, disk)
    }

    /// Spills a page behind those before it. Its segment goes to the purse.
    pub(crate) fn spill_out<D: Spill>(
        &mut self,
        page: Segment,
        purse: &mut Purse,
        disk: &mut D,
    ) -> Result<(), StreamFault>
        requires some { 0 < used page }
        requires within { used page ≤ length (body page) }
        requires open_page { self.old.open_page ≡ [] }
        requires room { length purse.old.pages + (length (held self.old) + 1) ≤ purse.old.room }
        requires sound { IsSound (D.told disk.old) self.old (page ∷ purse.old.pages) }
        ensures cause { HasWriteCause (D.fault_count disk.old) (D.fault_count disk.new) result }
        ensures added { OnOk result (BothTold (D.told disk.old) (D.told disk.new)
            (AddsText self.old self.new (used_bytes page))) }
        ensures pages { OnOk result (BothTold (D.told disk.old) (D.told disk.new)
            (AddsPages self.old self.new (length (used_bytes page) ∷ []))) }
        ensures keeps { BothTold (D.told disk.old) (D.told disk.new)
            (Keeps self.old self.new (page ∷ purse.old.pages) purse.new.pages) }
        ensures sound { IsSound (D.told disk.new) self.new purse.new.pages }
        ensures segments { MovesSegments self.old self.new (page ∷ purse.old.pages) purse.new.pages }
        ensures supply { 0 < length purse.new.pages }
        ensures open_page { self.new.open_page ≡ [] }
        ensures kept { self.new.kept ≡ self.old.kept }
        ensures room { purse.new.room ≡ purse.old.room }
        ensures own { self.new.room ≡ self.old.room }
    {
        let mut page = page;
        let answer = self.spill_page(&mut page, disk);
        purse.put(page);
        answer
    }

    /// Takes the open page out, where it has room for another byte, and else takes a blank one from the
    /// purse, and stores the open page.
    pub(crate) fn next_page<D: Spill>(
        &mut self,
        purse: &mut Purse,
        disk: &mut D,
    ) -> Result<Segment, StreamFault>
        requires supply { 0 < length purse.old.pages + length self.old.open_page }
        requires room { length purse.old.pages + length (held self.old) ≤ purse.old.room }
        requires sound { IsSound (D.told disk.old) self.old purse.old.pages }
        ensures cause { HasWriteCause (D.fault_count disk.old) (D.fault_count disk.new) result }
        ensures space { IfOk result (λ page. used page < length (body page)) }
        ensures trades { IfOk result (λ page. BothTold (D.told disk.old) (D.told disk.new)
            (Trades self.old self.new [] (used_bytes page))) }
        ensures full { OnOk result (BothTold (D.told disk.old) (D.told disk.new)
            (AddsFullPages self.old self.new purse.old.pages)) }
        ensures keeps { BothTold (D.told disk.old) (D.told disk.new)
            (Keeps self.old self.new purse.old.pages (in_hand result ++ purse.new.pages)) }
        ensures segments { MovesSegments self.old self.new purse.old.pages (in_hand result ++ purse.new.pages) }
        ensures open_page { self.new.open_page ≡ [] }
        ensures room { purse.new.room ≡ purse.old.room }
        ensures own { self.new.room ≡ self.old.room }
    {
        match self.take_last() {
            Some(page) => self.go_on(page, purse, disk),
            None => Ok(blank(purse)),
        }
    }

    // The same, of a page that was taken out.
    fn go_on<D: Spill>(
        &mut self,
        page: Segment,
        purse: &mut Purse,
        disk: &mut D,
    ) -> Result<Segment, StreamFault>
        requires some { 0 < used page }
        requires within { used page ≤ length (body page) }
        requires open_page { self.old.open_page ≡ [] }
        requires room { length purse.old.pages + (length (held self.old) + 1) ≤ purse.old.room }
        requires sound { IsSound (D.told disk.old) self.old (page ∷ purse.old.pages) }
        ensures cause { HasWriteCause (D.fault_count disk.old) (D.fault_count disk.new) result }
        ensures space { IfOk result (λ next. used next < length (body next)) }
        ensures trades { IfOk result (λ next. BothTold (D.told disk.old) (D.told disk.new)
            (Trades self.old self.new (used_bytes page) (used_bytes next))) }
        ensures full { OnOk result (BothTold (D.told disk.old) (D.told disk.new)
            (AddsFullPages self.old self.new (page ∷ purse.old.pages))) }
        ensures keeps { BothTold (D.told disk.old) (D.told disk.new)
            (Keeps self.old self.new (page ∷ purse.old.pages) (in_hand result ++ purse.new.pages)) }
        ensures segments { MovesSegments self.old self.new (page ∷ purse.old.pages) (in_hand result ++ purse.new.pages) }
        ensures open_page { self.new.open_page ≡ [] }
        ensures room { purse.new.room ≡ purse.old.room }
        ensures own { self.new.room ≡ self.old.room }
    {
        if has_space(&page) {
            return Ok(page);
        }
        match self.store(page, purse, disk) {
            Ok(()) => Ok(blank(purse)),
            Err(fault) => Err(fault),
        }
    }

    /// Writes as many of these bytes into a page as it has room for, and makes it the open page. How many.
    pub(crate) fn fill(&mut self, page: Segment, bytes: &[u8]) -> usize
        requires none { self.old.open_page ≡ [] }
        requires space { used page < length (body page) }
        requires some { 0 < length bytes.now }
        ensures some { 0 < result }
        ensures within { result ≤ length bytes.now }
        ensures used_bytes { all_used_bytes self.new.open_page ≡ used_bytes page ++ take result bytes.now }
        ensures one { length self.new.open_page ≡ 1 }
        ensures kept { self.new.kept ≡ self.old.kept }
        ensures run { self.new.run ≡ self.old.run }
        ensures segments { (h : ℕ → ℕ → ℕ) →
            segment_sum h (held self.new) ≡ segment_sum h (held self.old) + segment_sum h (page ∷ []) }
        ensures own { self.new.room ≡ self.old.room }
    {
        let mut page = page;
        let count = add_bytes(&mut page, bytes);
        self.put_last(page);
        count
    }
}

// Takes a segment from a purse, as a page of which no byte is used.
fn blank(purse: &mut Purse) -> Segment
    requires { 0 < length purse.old.pages }
    ensures used_bytes { used_bytes result ≡ [] }
    ensures space { used result < length (body result) }
    ensures room { purse.new.room ≡ purse.old.room }
    ensures segments { (h : ℕ → ℕ → ℕ) →
        segment_sum h (result ∷ purse.new.pages) ≡ segment_sum h purse.old.pages }
{
    let Some(page) = purse.take() else {
        unreachable!();
    };
    let mut page = page;
    let _body = body_of(&page);
    clear(&mut page);
    page
}
