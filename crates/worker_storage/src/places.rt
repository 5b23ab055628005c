//! Calls over the lots at some places of a list, told by these lots alone.
ghost use Rattle.std.specs.Prelude.{◌≡◌, ◌≢◌, ℕ, ◌<◌, ◌≤◌, ◌^◌, [], ◌∷◌, true, IfOk, OnOk, is_ok, false, length, slice_set, vec_len};
ghost use Rattle.std.specs.List.{swap};
ghost use Rattle.flow_outside.specs.Blocks.{BothTold};
ghost use Rattle.flow_outside.specs.Causes.{HasStreamCause};
ghost use Rattle.flow_outside.specs.Told.{IfTold};
ghost use Rattle.lot_store.specs.LotCalls.{AppendsPage, AppendsRow, IsSupplied, KeepsContents, Reads, Writes};
ghost use Rattle.lot_store.specs.Lots.{LotView, empty, held};
ghost use Rattle.lot_store.specs.Rows.{IsWhole, rows_in};
ghost use Rattle.spool.specs.Spilling.{HasWriteCause};
ghost use Rattle.lot_store.specs.Storage.{IsReady, Preserves, alone, lot_at, with_segment};
ghost use Rattle.row_pipe.specs.Pipes.{GivesRows, HasPassCause, HoldsWhatFits, MayPass, Passes, RestsAfter};
ghost use Rattle.spool.specs.Ios.{HasSameParts};
ghost use Rattle.worker_storage.specs.Storages.{HasCountCause, MayRead, row_count};

use crate::counting::count_rows;
use expr_core::scratch::Scratch;
use flow_outside::failure::StreamFault;
use flow_outside::spill::Spill;
use lot_store::lot::Lot;
use row_pipe::pipe::pipe;
use row_pipe::row_pipe::RowPipe;
use segment_core::{Purse, Segment};
use span_bytes::span::Span;
use spool::io::Io;
use std::mem;

/// `Lot::append` of the lot at a place.
pub(crate) fn append_at<X: Span, D: Spill>(
    lots: &mut Vec<Lot>,
    at: usize,
    row: &X,
    purse: &mut Purse,
    disk: &mut D,
) -> Result<(), StreamFault>
    requires there { at < vec_len lots.old }
    requires len { length (X.seen row.now) < 2 ^ 32 }
    requires supply { (d : LotView) → IsSupplied purse.old (lot_at lots.old.items at d) }
    requires ready { (d : LotView) → IsReady (alone (D.told disk.old) purse.old
        (lot_at lots.old.items at d)) }
    ensures added { (d : LotView) → OnOk result (BothTold (D.told disk.old) (D.told disk.new)
        (AppendsRow (lot_at lots.old.items at d) (lot_at lots.new.items at d) purse.old.pages
        (X.seen row.now))) }
    ensures writes { (d : LotView) → Writes (D.told disk.old) (D.told disk.new) purse.old purse.new
        (lot_at lots.old.items at d) (lot_at lots.new.items at d) }
    ensures cause { HasWriteCause (D.fault_count disk.old) (D.fault_count disk.new) result }
    ensures supply { (d : LotView) → OnOk result (IsSupplied purse.new
        (lot_at lots.new.items at d)) }
    ensures count { length lots.new.items ≡ length lots.old.items }
    ensures same { (i : ℕ) (d : LotView) → i ≢ at →
        lot_at lots.new.items i d ≡ lot_at lots.old.items i d }
{
    lots[at].append(row, purse, disk)
}

/// `Lot::append_page` of the lot at a place.
pub(crate) fn append_page_at<D: Spill>(
    lots: &mut Vec<Lot>,
    at: usize,
    page: Segment,
    purse: &mut Purse,
    disk: &mut D,
) -> Result<(), StreamFault>
    requires there { at < vec_len lots.old }
    requires ready { (d : LotView) → IsReady (alone (D.told disk.old) (with_segment page purse.old)
        (lot_at lots.old.items at d)) }
    ensures added { (d : LotView) → OnOk result (BothTold (D.told disk.old) (D.told disk.new)
        (AppendsPage page (lot_at lots.old.items at d) (lot_at lots.new.items at d))) }
    ensures writes { (d : LotView) → Writes (D.told disk.old) (D.told disk.new)
        (with_segment page purse.old) purse.new (lot_at lots.old.items at d)
        (lot_at lots.new.items at d) }
    ensures cause { HasWriteCause (D.fault_count disk.old) (D.fault_count disk.new) result }
    ensures count { length lots.new.items ≡ length lots.old.items }
    ensures same { (i : ℕ) (d : LotView) → i ≢ at →
        lot_at lots.new.items i d ≡ lot_at lots.old.items i d }
{
    lots[at].append_page(page, purse, disk)
}

/// `Lot::rest` of the lot at a place.
pub(crate) fn rest_at<D: Spill>(
    lots: &mut Vec<Lot>,
    at: usize,
    purse: &mut Purse,
    disk: &mut D,
) -> Result<(), StreamFault>
    requires there { at < vec_len lots.old }
    requires ready { (d : LotView) → IsReady (alone (D.told disk.old) purse.old
        (lot_at lots.old.items at d)) }
    ensures same_rows { (d : LotView) → OnOk result (BothTold (D.told disk.old) (D.told disk.new)
        (KeepsContents (lot_at lots.old.items at d) (lot_at lots.new.items at d))) }
    ensures writes { (d : LotView) → Writes (D.told disk.old) (D.told disk.new) purse.old purse.new
        (lot_at lots.old.items at d) (lot_at lots.new.items at d) }
    ensures cause { HasWriteCause (D.fault_count disk.old) (D.fault_count disk.new) result }
    ensures rests { (d : LotView) → length (held (lot_at lots.new.items at d)) ≤
        (lot_at lots.new.items at d).stored.room }
    ensures count { length lots.new.items ≡ length lots.old.items }
    ensures same { (i : ℕ) (d : LotView) → i ≢ at →
        lot_at lots.new.items i d ≡ lot_at lots.old.items i d }
{
    lots[at].rest(purse, disk)
}

/// `Lot::drop_lot` of the lot at a place.
pub(crate) fn drop_at<D: Spill>(
    lots: &mut Vec<Lot>,
    at: usize,
    purse: &mut Purse,
    disk: &mut D,
) -> Result<(), StreamFault>
    requires there { at < vec_len lots.old }
    requires supply { 0 < length purse.old.pages }
    requires ready { (d : LotView) → IsReady (alone (D.told disk.old) purse.old
        (lot_at lots.old.items at d)) }
    ensures empty { (d : LotView) → lot_at lots.new.items at d ≡ empty
        (lot_at lots.old.items at d).stored.room (lot_at lots.old.items at d).feed.reach }
    ensures preserves { (d : LotView) → Preserves (alone (D.told disk.old) purse.old
        (lot_at lots.old.items at d))
        (alone (D.told disk.new) purse.new (lot_at lots.new.items at d)) (0 ∷ []) (0 ∷ [])
        (is_ok result) }
    ensures cause { HasStreamCause (D.fault_count disk.old) (D.fault_count disk.new)
        (D.told disk.old) result }
    ensures count { length lots.new.items ≡ length lots.old.items }
    ensures same { (i : ℕ) (d : LotView) → i ≢ at →
        lot_at lots.new.items i d ≡ lot_at lots.old.items i d }
{
    lots[at].drop_lot(purse, disk)
}

/// `count_rows` of the lot at a place.
pub(crate) fn count_at<D: Spill>(
    lots: &mut Vec<Lot>,
    at: usize,
    purse: &mut Purse,
    disk: &mut D,
) -> Result<u64, StreamFault>
    requires there { at < vec_len lots.old }
    requires may { (d : LotView) → MayRead purse.old (lot_at lots.old.items at d) }
    requires ready { (d : LotView) → IsReady (alone (D.told disk.old) purse.old
        (lot_at lots.old.items at d)) }
    requires whole { (d : LotView) → IfTold (D.told disk.old)
        (λ blocks. IsWhole blocks (lot_at lots.old.items at d)) }
    ensures count { (d : LotView) → IfOk result (λ count. IfTold (D.told disk.old)
        (λ blocks. count ≡ row_count (rows_in blocks (lot_at lots.old.items at d)))) }
    ensures reads { (d : LotView) → Reads (D.told disk.old) (D.told disk.new) purse.old purse.new
        (lot_at lots.old.items at d) (lot_at lots.new.items at d) }
    ensures cause { (d : LotView) → HasCountCause (D.fault_count disk.old) (D.fault_count disk.new)
        (D.told disk.old) (lot_at lots.new.items at d) result }
    ensures rests { (d : LotView) → length (held (lot_at lots.new.items at d)) ≤
        (lot_at lots.new.items at d).stored.room }
    ensures count_same { length lots.new.items ≡ length lots.old.items }
    ensures same { (i : ℕ) (d : LotView) → i ≢ at →
        lot_at lots.new.items i d ≡ lot_at lots.old.items i d }
{
    count_rows(&mut lots[at], purse, disk)
}

/// `pipe` from the lot at a place to the lot at another.
pub(crate) fn pipe_at<D: Spill>(
    p: &RowPipe,
    lots: &mut Vec<Lot>,
    from: usize,
    to: usize,
    s: &mut Scratch,
    io: &mut Io<'_, D>,
) -> Result<(), StreamFault>
    requires there { from < vec_len lots.old }
    requires other { to < vec_len lots.old }
    requires apart { from ≢ to }
    requires may { (d : LotView) → MayPass (lot_at lots.old.items from d)
        (lot_at lots.old.items to d) io.old.purse.now }
    requires holds { (d : LotView) → IfTold (D.told io.old.disk.now)
        (HoldsWhatFits p.now.takes p.now.work (lot_at lots.old.items from d)
        (lot_at lots.old.items to d) io.old.purse.now.pages) }
    ensures rows { (d : LotView) → OnOk result (BothTold (D.told io.old.disk.now)
        (D.told io.new.disk.now)
        (GivesRows p.now.takes p.now.work (lot_at lots.old.items from d)
        (lot_at lots.old.items to d) (lot_at lots.new.items to d))) }
    ensures passes { (d : LotView) → Passes (D.told io.old.disk.now) (D.told io.new.disk.now)
        (lot_at lots.old.items from d) (lot_at lots.new.items from d) (lot_at lots.old.items to d)
        (lot_at lots.new.items to d) io.old.purse.now io.new.purse.now }
    ensures cause { (d : LotView) → HasPassCause (D.fault_count io.old.disk.now)
        (D.fault_count io.new.disk.now)
        (D.told io.old.disk.now) (lot_at lots.new.items from d) result }
    ensures rests { (d : LotView) → RestsAfter (lot_at lots.new.items from d)
        (lot_at lots.new.items to d) result }
    ensures lent { HasSameParts io.old io.new }
    ensures count { length lots.new.items ≡ length lots.old.items }
    ensures same { (i : ℕ) (d : LotView) → i ≢ from → i ≢ to →
        lot_at lots.new.items i d ≡ lot_at lots.old.items i d }
{
    pipe_between(p, lots, from, to, s, io)
}

/// The same, over a slice.
fn pipe_between<D: Spill>(
    p: &RowPipe,
    lots: &mut [Lot],
    from: usize,
    to: usize,
    s: &mut Scratch,
    io: &mut Io<'_, D>,
) -> Result<(), StreamFault>
    requires there { from < length lots.old }
    requires other { to < length lots.old }
    requires apart { from ≢ to }
    requires may { (d : LotView) → MayPass (lot_at lots.old from d)
        (lot_at lots.old to d) io.old.purse.now }
    requires holds { (d : LotView) → IfTold (D.told io.old.disk.now)
        (HoldsWhatFits p.now.takes p.now.work (lot_at lots.old from d)
        (lot_at lots.old to d) io.old.purse.now.pages) }
    ensures rows { (d : LotView) → OnOk result (BothTold (D.told io.old.disk.now)
        (D.told io.new.disk.now)
        (GivesRows p.now.takes p.now.work (lot_at lots.old from d) (lot_at lots.old to d)
        (lot_at lots.new to d))) }
    ensures passes { (d : LotView) → Passes (D.told io.old.disk.now) (D.told io.new.disk.now)
        (lot_at lots.old from d) (lot_at lots.new from d) (lot_at lots.old to d)
        (lot_at lots.new to d) io.old.purse.now io.new.purse.now }
    ensures cause { (d : LotView) → HasPassCause (D.fault_count io.old.disk.now)
        (D.fault_count io.new.disk.now)
        (D.told io.old.disk.now) (lot_at lots.new from d) result }
    ensures rests { (d : LotView) → RestsAfter (lot_at lots.new from d)
        (lot_at lots.new to d) result }
    ensures lent { HasSameParts io.old io.new }
    ensures count { length lots.new ≡ length lots.old }
    ensures same { (i : ℕ) (d : LotView) → i ≢ from → i ≢ to →
        lot_at lots.new i d ≡ lot_at lots.old i d }
{
    if from < to {
        let (left, right) = lots.split_at_mut(to);
        pipe(p, &mut left[from], &mut right[0], s, io)
    } else {
        let (left, right) = lots.split_at_mut(from);
        pipe(p, &mut right[0], &mut left[to], s, io)
    }
}

/// Puts the lots at two places each in the place of the other.
pub(crate) fn swap_at(lots: &mut Vec<Lot>, one: usize, other: usize)
    requires one { one < vec_len lots.old }
    requires other { other < vec_len lots.old }
    ensures { lots.new.items ≡ swap lots.old.items one other }
{
    lots.swap(one, other);
}

/// Puts a lot in the place of one, which it gives.
pub(crate) fn exchange_at(lots: &mut Vec<Lot>, at: usize, lot: &mut Lot)
    requires { at < vec_len lots.old }
    ensures placed { lots.new.items ≡ slice_set lots.old.items at lot.old }
    ensures given { (d : LotView) → lot.new ≡ lot_at lots.old.items at d }
{
    mem::swap(&mut lots[at], lot);
}

/// The first answer, or where it is no fault the next.
pub(crate) fn first_fault(
    first: Result<(), StreamFault>,
    next: Result<(), StreamFault>,
) -> Result<(), StreamFault>
    ensures ok { is_ok result ≡ true → (is_ok first ≡ true) }
    ensures both { is_ok result ≡ true → (is_ok next ≡ true) }
    ensures same { (is_ok first ≡ true → result ≡ next) }
    ensures fault { (is_ok first ≡ false → result ≡ first) }
{
    match first {
        Ok(()) => next,
        Err(fault) => Err(fault),
    }
}
