ghost use Rattle.std.specs.Prelude.{◌≡◌, ◌+◌, ◌^◌, ◌<◌, ◌≤◌, IfOk, OnOk, length, take};
ghost use Rattle.flow_outside.specs.Blocks.{BothTold};
ghost use Rattle.flow_types.specs.Records.{framed};
ghost use Rattle.lot_store.specs.Keeping.{AddsFullPages, AddsText, Keeps, MovesSegments};
ghost use Rattle.lot_store.specs.Stores.{IsSound, held};
ghost use Rattle.spool.specs.Spilling.{HasWriteCause};

use crate::stored::StoredPages;
use flow_outside::failure::StreamFault;
use flow_outside::spill::Spill;
use segment_core::Purse;
use span_bytes::span::Span;

impl StoredPages {
    /// Adds a record behind the others: its length and its bytes, which go on in the next page where a page
    /// ends. A page that is full is kept, where there is room for it, no page was spilled yet and the purse
    /// has another segment, and else it is spilled.
    ///
    /// `Spill` only where the disk's count of faults rose in this call; what the lot stands for is then open.
    /// It copies the record's bytes by pieces, and a page costs one write at most. It takes no memory. A record
    /// that fits into the open page touches nothing else.
    pub(crate) fn append<X: Span, D: Spill>(
        &mut self,
        row: &X,
        purse: &mut Purse,
        disk: &mut D,
    ) -> Result<(), StreamFault>
        requires len { length (X.seen row.now) < 2 ^ 32 }
        requires supply { 0 < length purse.old.pages + length self.old.open_page }
        requires room { length purse.old.pages + length (held self.old) ≤ purse.old.room }
        requires sound { IsSound (D.told disk.old) self.old purse.old.pages }
        ensures cause { HasWriteCause (D.fault_count disk.old) (D.fault_count disk.new) result }
        ensures added { OnOk result (BothTold (D.told disk.old) (D.told disk.new)
            (AddsText self.old self.new (framed (X.seen row.now)))) }
        ensures full { OnOk result (BothTold (D.told disk.old) (D.told disk.new)
            (AddsFullPages self.old self.new purse.old.pages)) }
        ensures keeps { BothTold (D.told disk.old) (D.told disk.new)
            (Keeps self.old self.new purse.old.pages purse.new.pages) }
        ensures sound { IsSound (D.told disk.new) self.new purse.new.pages }
        ensures segments { MovesSegments self.old self.new purse.old.pages purse.new.pages }
        ensures supply { OnOk result (0 < length purse.new.pages + length self.new.open_page) }
        ensures room { purse.new.room ≡ purse.old.room }
        ensures fits { length purse.new.pages + length (held self.new) ≤ purse.new.room }
        ensures own { self.new.room ≡ self.old.room }
    {
        if self.has_room(row.len()) {
            self.put_here(row);
            return Ok(());
        }
        self.append_on(row, purse, disk)
    }

    // The same, where the record may go on in the next page.
    fn append_on<X: Span, D: Spill>(
        &mut self,
        row: &X,
        purse: &mut Purse,
        disk: &mut D,
    ) -> Result<(), StreamFault>
        requires len { length (X.seen row.now) < 2 ^ 32 }
        requires supply { 0 < length purse.old.pages + length self.old.open_page }
        requires room { length purse.old.pages + length (held self.old) ≤ purse.old.room }
        requires sound { IsSound (D.told disk.old) self.old purse.old.pages }
        ensures cause { HasWriteCause (D.fault_count disk.old) (D.fault_count disk.new) result }
        ensures added { OnOk result (BothTold (D.told disk.old) (D.told disk.new)
            (AddsText self.old self.new (framed (X.seen row.now)))) }
        ensures full { OnOk result (BothTold (D.told disk.old) (D.told disk.new)
            (AddsFullPages self.old self.new purse.old.pages)) }
        ensures keeps { BothTold (D.told disk.old) (D.told disk.new)
            (Keeps self.old self.new purse.old.pages purse.new.pages) }
        ensures sound { IsSound (D.told disk.new) self.new purse.new.pages }
        ensures segments { MovesSegments self.old self.new purse.old.pages purse.new.pages }
        ensures supply { OnOk result (0 < length purse.new.pages + length self.new.open_page) }
        ensures room { purse.new.room ≡ purse.old.room }
        ensures fits { length purse.new.pages + length (held self.new) ≤ purse.new.room }
        ensures own { self.new.room ≡ self.old.room }
    {
        let len = row.len() as u32;
        match self.write(&len.to_be_bytes(), purse, disk) {
            Ok(()) => self.write_span(row, purse, disk),
            Err(fault) => Err(fault),
        }
    }

    // Adds all bytes of a record.
    fn write_span<X: Span, D: Spill>(
        &mut self,
        row: &X,
        purse: &mut Purse,
        disk: &mut D,
    ) -> Result<(), StreamFault>
        requires supply { 0 < length purse.old.pages + length self.old.open_page }
        requires room { length purse.old.pages + length (held self.old) ≤ purse.old.room }
        requires sound { IsSound (D.told disk.old) self.old purse.old.pages }
        ensures cause { HasWriteCause (D.fault_count disk.old) (D.fault_count disk.new) result }
        ensures added { OnOk result (BothTold (D.told disk.old) (D.told disk.new)
            (AddsText self.old self.new (X.seen row.now))) }
        ensures full { OnOk result (BothTold (D.told disk.old) (D.told disk.new)
            (AddsFullPages self.old self.new purse.old.pages)) }
        ensures keeps { BothTold (D.told disk.old) (D.told disk.new)
            (Keeps self.old self.new purse.old.pages purse.new.pages) }
        ensures sound { IsSound (D.told disk.new) self.new purse.new.pages }
        ensures segments { MovesSegments self.old self.new purse.old.pages purse.new.pages }
        ensures supply { OnOk result (0 < length purse.new.pages + length self.new.open_page) }
        ensures room { purse.new.room ≡ purse.old.room }
        ensures fits { length purse.new.pages + length (held self.new) ≤ purse.new.room }
        ensures own { self.new.room ≡ self.old.room }
    {
        let len = row.len();
        let mut at = 0;
        'pieces: while at < len {
            let piece = row.piece(at);
            match self.write(piece, purse, disk) {
                Ok(()) => at += piece.len(),
                Err(fault) => return Err(fault),
            }
        }
        Ok(())
    }

    // Adds these bytes.
    fn write<D: Spill>(
        &mut self,
        bytes: &[u8],
        purse: &mut Purse,
        disk: &mut D,
    ) -> Result<(), StreamFault>
        requires supply { 0 < length purse.old.pages + length self.old.open_page }
        requires room { length purse.old.pages + length (held self.old) ≤ purse.old.room }
        requires sound { IsSound (D.told disk.old) self.old purse.old.pages }
        ensures cause { HasWriteCause (D.fault_count disk.old) (D.fault_count disk.new) result }
        ensures added { OnOk result (BothTold (D.told disk.old) (D.told disk.new)
            (AddsText self.old self.new bytes.now)) }
        ensures full { OnOk result (BothTold (D.told disk.old) (D.told disk.new)
            (AddsFullPages self.old self.new purse.old.pages)) }
        ensures keeps { BothTold (D.told disk.old) (D.told disk.new)
            (Keeps self.old self.new purse.old.pages purse.new.pages) }
        ensures sound { IsSound (D.told disk.new) self.new purse.new.pages }
        ensures segments { MovesSegments self.old self.new purse.old.pages purse.new.pages }
        ensures supply { OnOk result (0 < length purse.new.pages + length self.new.open_page) }
        ensures room { purse.new.room ≡ purse.old.room }
        ensures fits { length purse.new.pages + length (held self.new) ≤ purse.new.room }
        ensures own { self.new.room ≡ self.old.room }
    {
        let mut at = 0;
        'pieces: while at < bytes.len() {
            match self.write_piece(&bytes[at..], purse, disk) {
                Ok(count) => at += count,
                Err(fault) => return Err(fault),
            }
        }
        Ok(())
    }

    // Adds as many of these bytes as the next page has room for. How many.
    fn write_piece<D: Spill>(
        &mut self,
        bytes: &[u8],
        purse: &mut Purse,
        disk: &mut D,
    ) -> Result<usize, StreamFault>
        requires some { 0 < length bytes.now }
        requires supply { 0 < length purse.old.pages + length self.old.open_page }
        requires room { length purse.old.pages + length (held self.old) ≤ purse.old.room }
        requires sound { IsSound (D.told disk.old) self.old purse.old.pages }
        ensures cause { HasWriteCause (D.fault_count disk.old) (D.fault_count disk.new) result }
        ensures some { IfOk result (λ count. 0 < count) }
        ensures within { IfOk result (λ count. count ≤ length bytes.now) }
        ensures added { IfOk result (λ count. BothTold (D.told disk.old) (D.told disk.new)
            (AddsText self.old self.new (take count bytes.now))) }
        ensures full { OnOk result (BothTold (D.told disk.old) (D.told disk.new)
            (AddsFullPages self.old self.new purse.old.pages)) }
        ensures keeps { BothTold (D.told disk.old) (D.told disk.new)
            (Keeps self.old self.new purse.old.pages purse.new.pages) }
        ensures sound { IsSound (D.told disk.new) self.new purse.new.pages }
        ensures segments { MovesSegments self.old self.new purse.old.pages purse.new.pages }
        ensures supply { OnOk result (0 < length purse.new.pages + length self.new.open_page) }
        ensures room { purse.new.room ≡ purse.old.room }
        ensures fits { length purse.new.pages + length (held self.new) ≤ purse.new.room }
        ensures own { self.new.room ≡ self.old.room }
    {
        match self.next_page(purse, disk) {
            Ok(page) => Ok(self.fill(page, bytes)),
            Err(fault) => Err(fault),
        }
    }
}
