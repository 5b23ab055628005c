ghost use Rattle.std.specs.Prelude.{◌≡◌, ◌≢◌, ℕ, ◌+◌, ◌<◌, ◌≤◌, ◌^◌, [], ◌∷◌, true, IfOk, OnOk, is_ok, length, slice_set};
ghost use Rattle.std.specs.List.{swap};
ghost use Rattle.flow_outside.specs.Blocks.{BothTold};
ghost use Rattle.flow_outside.specs.Causes.{HasStreamCause};
ghost use Rattle.flow_outside.specs.Told.{IfTold};
ghost use Rattle.lot_store.specs.LotCalls.{AppendsPage, IsSupplied};
ghost use Rattle.lot_store.specs.Lots.{LotView, empty, held};
ghost use Rattle.lot_store.specs.Rows.{Gains, IsWhole, rows_in, rows_of};
ghost use Rattle.spool.specs.Spilling.{HasWriteCause};
ghost use Rattle.lot_store.specs.Storage.{IsReadyAt, held_count, lot_at, with_segment};
ghost use Rattle.row_pipe.specs.Pipes.{GivesWithin, HasPassCause, RestsAfter};
ghost use Rattle.worker_storage.specs.Storages.{FreesAll, HasCountCause, HoldsSome, IsShort};
ghost use Rattle.worker_storage.specs.Storages.{KeepsStorage, MayRead, all_places, given, row_count, view_of, with_lot};

use crate::places::{
    append_at, append_page_at, count_at, drop_at, exchange_at, first_fault, pipe_at, rest_at,
    swap_at,
};
use expr_core::scratch::Scratch;
use flow_outside::failure::StreamFault;
use flow_outside::spill::Spill;
use lot_store::lot::Lot;
use row_pipe::row_pipe::RowPipe;
use segment_core::{Purse, Segment};
use span_bytes::span::Span;
use spool::io::Io;
use std::marker::Model;

/// A worker's purse, its disk and its lots, by their places. They always stand together: all
/// segments have one size, no block of the disk is one of two lots, and the purse has room for
/// every segment. It may not be let go: `into_parts` gives all back.
pub struct WorkerStorage<D: Spill> {
    size: u32,
    purse: Purse,
    disk: D,
    lots: Vec<Lot>,
}

impl<D: Spill> Model for WorkerStorage<D> {
    ghost use Rattle.lot_store.specs.Storage.{IsReadyAt};
    ghost use Rattle.worker_storage.specs.Storages.{Storage};

    ghost Value = { Storage D };

    ghost view = { λ s. record {
      size = s.size;
      purse = s.purse;
      disk = s.disk;
      lots = s.lots.items;
    } };

    ghost invariant = { λ s.
        IsReadyAt s.size (record { told = D.told s.disk; purse = s.purse; lots = s.lots.items }) };
}

impl<D: Spill> WorkerStorage<D> {
    /// The storage of these parts, which stand together at this size of segments.
    pub fn of(size: u32, purse: Purse, disk: D, lots: Vec<Lot>) -> WorkerStorage<D>
        requires { IsReadyAt size (record { told = D.told disk; purse = purse; lots = lots.items }) }
        ensures { result ≡ record { size = size; purse = purse; disk = disk; lots = lots.items } }
    {
        WorkerStorage {
            size,
            purse,
            disk,
            lots,
        }
    }

    /// What is true of every storage: all of it stands together. It does nothing, and is called
    /// for the prover alone.
    pub fn limits(&self)
        ensures { IsReadyAt self.now.size (view_of D.told self.now) }
    {
        let _ = &self.size;
    }

    /// Takes it apart.
    pub fn into_parts(self) -> (Purse, D, Vec<Lot>)
        ensures purse { result.0 ≡ self.purse }
        ensures disk { result.1 ≡ self.disk }
        ensures lots { result.2.items ≡ self.lots }
    {
        let WorkerStorage {
            size: _,
            purse,
            disk,
            lots,
        } = self;
        (purse, disk, lots)
    }

    /// Adds a record behind those of a lot, as `Lot::append` does.
    ///
    /// `Spill` only where the disk's count of faults rose in this call; what the lot stands for is
    /// then open.
    pub fn append<X: Span>(&mut self, at: usize, row: &X) -> Result<(), StreamFault>
        requires there { at < length self.old.lots }
        requires len { length (X.seen row.now) < 2 ^ 32 }
        requires supply { (d : LotView) → IsSupplied self.old.purse (lot_at self.old.lots at d) }
        ensures rows { (d : LotView) → IsShort self.old.size (lot_at self.old.lots at d).feed.reach
            (length (X.seen row.now)) →
            OnOk result (BothTold (D.told self.old.disk) (D.told self.new.disk)
            (Gains (lot_at self.old.lots at d) (lot_at self.new.lots at d) (X.seen row.now ∷ []))) }
        ensures keeps { KeepsStorage D.told self.old self.new (at ∷ []) (at ∷ []) true }
        ensures cause { HasWriteCause (D.fault_count self.old.disk)
            (D.fault_count self.new.disk) result }
        ensures supply { (d : LotView) → OnOk result (IsSupplied self.new.purse
            (lot_at self.new.lots at d)) }
    {
        append_at(&mut self.lots, at, row, &mut self.purse, &mut self.disk)
    }

    /// Adds a page's used bytes behind those of a lot, as `Lot::append_page` does.
    ///
    /// `Spill` only where the disk's count of faults rose in this call; what the lot stands for is
    /// then open.
    pub fn append_page(&mut self, at: usize, page: Segment) -> Result<(), StreamFault>
        requires there { at < length self.old.lots }
        requires sized { length page.bytes ≡ self.old.size }
        requires room { length self.old.purse.pages + held_count self.old.lots < self.old.purse.room }
        ensures added { (d : LotView) → OnOk result (BothTold (D.told self.old.disk)
            (D.told self.new.disk)
            (AppendsPage page (lot_at self.old.lots at d) (lot_at self.new.lots at d))) }
        ensures keeps { KeepsStorage D.told
            (record self.old { purse = with_segment page self.old.purse }) self.new (at ∷ [])
            (at ∷ []) true }
        ensures cause { HasWriteCause (D.fault_count self.old.disk)
            (D.fault_count self.new.disk) result }
    {
        append_page_at(&mut self.lots, at, page, &mut self.purse, &mut self.disk)
    }

    /// Brings a lot to rest, as `Lot::rest` does: it then holds at most as many segments as it
    /// keeps pages.
    ///
    /// `Spill` only where the disk's count of faults rose in this call; what the lot stands for is
    /// then open.
    pub fn rest(&mut self, at: usize) -> Result<(), StreamFault>
        requires { at < length self.old.lots }
        ensures rows { (d : LotView) → OnOk result (BothTold (D.told self.old.disk)
            (D.told self.new.disk)
            (Gains (lot_at self.old.lots at d) (lot_at self.new.lots at d) [])) }
        ensures keeps { KeepsStorage D.told self.old self.new (at ∷ []) (at ∷ []) true }
        ensures cause { HasWriteCause (D.fault_count self.old.disk)
            (D.fault_count self.new.disk) result }
        ensures rests { (d : LotView) → length (held (lot_at self.new.lots at d)) ≤
            (lot_at self.new.lots at d).stored.room }
    {
        rest_at(&mut self.lots, at, &mut self.purse, &mut self.disk)
    }

    /// Empties a lot, as `Lot::drop_lot` does: its segments go to the purse, whatever the answer,
    /// and where that is Ok, no block that was its own is live.
    pub fn drop_lot(&mut self, at: usize) -> Result<(), StreamFault>
        requires there { at < length self.old.lots }
        requires supply { 0 < length self.old.purse.pages }
        ensures empty { (d : LotView) → lot_at self.new.lots at d
            ≡ empty (lot_at self.old.lots at d).stored.room (lot_at self.old.lots at d).feed.reach }
        ensures keeps { KeepsStorage D.told self.old self.new (at ∷ []) (at ∷ []) (is_ok result) }
        ensures cause { HasStreamCause (D.fault_count self.old.disk) (D.fault_count self.new.disk)
            (D.told self.old.disk) result }
    {
        drop_at(&mut self.lots, at, &mut self.purse, &mut self.disk)
    }

    /// Empties all lots, the first first. Their segments go to the purse, whatever the answer,
    /// which is the first fault: after it the lots behind are emptied all the same. Where it is
    /// Ok, no block that was a lot's is live.
    pub fn drop_all(&mut self) -> Result<(), StreamFault>
        requires { 0 < length self.old.purse.pages }
        ensures empty { (i : ℕ) (d : LotView) → i < length self.old.lots → lot_at self.new.lots i d
            ≡ empty (lot_at self.old.lots i d).stored.room (lot_at self.old.lots i d).feed.reach }
        ensures freed { OnOk result (BothTold (D.told self.old.disk) (D.told self.new.disk)
            (FreesAll self.old.lots)) }
        ensures keeps { KeepsStorage D.told self.old self.new
            (all_places (length self.old.lots)) (all_places (length self.old.lots)) (is_ok result) }
        ensures cause { HasStreamCause (D.fault_count self.old.disk) (D.fault_count self.new.disk)
            (D.told self.old.disk) result }
    {
        let mut answer = Ok(());
        for at in 0..self.lots.len() {
            let dropped = self.drop_lot(at);
            answer = first_fault(answer, dropped);
        }
        answer
    }

    /// Puts the lots at two places each in the place of the other. Both keep as many pages and
    /// take records over as many.
    pub fn swap(&mut self, one: usize, other: usize)
        requires one { one < length self.old.lots }
        requires other { other < length self.old.lots }
        requires rooms { (d : LotView) → (lot_at self.old.lots one d).stored.room ≡
            (lot_at self.old.lots other d).stored.room }
        requires reach { (d : LotView) → (lot_at self.old.lots one d).feed.reach ≡
            (lot_at self.old.lots other d).feed.reach }
        ensures swapped { self.new ≡ record self.old { lots = swap self.old.lots one other } }
        ensures keeps { KeepsStorage D.told self.old self.new (one ∷ other ∷ [])
            (one ∷ other ∷ []) true }
    {
        swap_at(&mut self.lots, one, other);
    }

    /// Puts a lot from outside in the place of one, which it gives. The lot from outside stands
    /// together with those here, so that none of its blocks is one of theirs; the lot that goes
    /// then does.
    pub fn exchange(&mut self, at: usize, lot: &mut Lot)
        requires there { at < length self.old.lots }
        requires stands { IsReadyAt self.old.size (with_lot lot.old (view_of D.told self.old)) }
        ensures given { (d : LotView) → lot.new ≡ lot_at self.old.lots at d }
        ensures placed { self.new ≡ record self.old { lots = slice_set self.old.lots at lot.old } }
        ensures stands { IsReadyAt self.new.size (with_lot lot.new (view_of D.told self.new)) }
    {
        exchange_at(&mut self.lots, at, lot);
    }

    /// How many records a lot has, 2^64 - 1 where there are more. The lot is at rest before and, whatever the
    /// answer, afterwards. Each of its pages is read once.
    ///
    /// `Spill` comes only where the disk's count of faults rose in this call, `Damaged` only over a disk that
    /// doesn't tell, with the block that was read last.
    pub fn rows(&mut self, at: usize) -> Result<u64, StreamFault>
        requires there { at < length self.old.lots }
        requires may { (d : LotView) → MayRead self.old.purse (lot_at self.old.lots at d) }
        requires whole { (d : LotView) → IfTold (D.told self.old.disk)
            (λ blocks. IsWhole blocks (lot_at self.old.lots at d)) }
        ensures count { (d : LotView) → IfOk result (λ count. IfTold (D.told self.old.disk)
            (λ blocks. count ≡ row_count (rows_in blocks (lot_at self.old.lots at d)))) }
        ensures keeps { KeepsStorage D.told self.old self.new (at ∷ []) [] true }
        ensures cause { (d : LotView) → HasCountCause (D.fault_count self.old.disk)
            (D.fault_count self.new.disk) (D.told self.old.disk) (lot_at self.new.lots at d) result }
        ensures rests { (d : LotView) → length (held (lot_at self.new.lots at d)) ≤
            (lot_at self.new.lots at d).stored.room }
    {
        count_at(&mut self.lots, at, &mut self.purse, &mut self.disk)
    }

    /// Adds the rows that are given of a lot's rows behind those of another lot, as `pipe` does.
    ///
    /// `Spill` comes only where the disk's count of faults rose in this call, `Damaged` only over
    /// a disk that doesn't tell, with the block that was read last. Both lots are at rest afterwards, the
    /// one that is read whatever the answer.
    pub fn pipe(
        &mut self,
        p: &RowPipe,
        from: usize,
        to: usize,
        s: &mut Scratch,
    ) -> Result<(), StreamFault>
        requires there { (from < length self.old.lots) × (to < length self.old.lots) × (from ≢ to) }
        requires may { (d : LotView) → MayRead self.old.purse (lot_at self.old.lots from d) }
        requires within { (d : LotView) → GivesWithin p.now.takes p.now.work self.old.size
            (lot_at self.old.lots to d).feed.reach }
        requires holds { (d : LotView) → IfTold (D.told self.old.disk) (HoldsSome p.now.takes
            (lot_at self.old.lots from d)) }
        ensures rows { (d : LotView) → OnOk result (BothTold (D.told self.old.disk)
            (D.told self.new.disk)
            (Gains (lot_at self.old.lots to d) (lot_at self.new.lots to d)
            (given p.now.takes p.now.work (rows_of (D.told self.old.disk)
            (lot_at self.old.lots from d))))) }
        ensures keeps { KeepsStorage D.told self.old self.new (from ∷ to ∷ []) (to ∷ []) true }
        ensures cause { (d : LotView) → HasPassCause (D.fault_count self.old.disk)
            (D.fault_count self.new.disk)
            (D.told self.old.disk) (lot_at self.new.lots from d) result }
        ensures rests { (d : LotView) → RestsAfter (lot_at self.new.lots from d)
            (lot_at self.new.lots to d) result }
    {
        let mut io = Io {
            purse: &mut self.purse,
            disk: &mut self.disk,
        };
        pipe_at(p, &mut self.lots, from, to, s, &mut io)
    }
}
