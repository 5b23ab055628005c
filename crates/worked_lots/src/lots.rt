ghost use Rattle.std.specs.Prelude.{◌≡◌, ℕ, ◌+◌, ◌<◌, ◌≤◌, [], ◌∷◌, None, OnOk, length};
ghost use Rattle.lot_store.specs.LotCalls.{Reads, Writes};
ghost use Rattle.lot_store.specs.Lots.{IsLeft, IsRewound, empty, held};
ghost use Rattle.lot_store.specs.Storage.{IsReady, alone};
ghost use Rattle.paged_view.specs.Streams.{KnowsRows};
ghost use Rattle.segment_core.specs.Segments.{count_other_size, segment_sum};
ghost use Rattle.worked_lots.specs.Worked.{CanAdd, CanRead, ReadsOn};

use crate::cuts::with_cuts;
use crate::rows::{is_row, row_of};
use flow_outside::failure::StreamFault;
use flow_outside::spill::Spill;
use lot_store::lot::Lot;
use paged_view::stream::RecordStream;
use segment_core::{Pool, Purse};
use std::alloc::Global;
use std::process::Abort;

/// Adds a record of at most 12,000 bytes.
fn add<D: Spill>(
    lot: &mut Lot,
    row: &[u8],
    purse: &mut Purse,
    disk: &mut D,
) -> Result<(), StreamFault>
    requires short { length row.now ≤ 12000 }
    requires can { CanAdd (D.told disk.old) lot.old purse.old }
    ensures can { OnOk result (CanAdd (D.told disk.new) lot.new purse.new) }
    ensures writes { Writes (D.told disk.old) (D.told disk.new) purse.old purse.new lot.old lot.new }
{
    lot.append(&row, purse, disk)
}

/// Adds the first records, so many of them, each of `len` bytes.
fn fill<D: Spill>(
    lot: &mut Lot,
    bytes: &[u8],
    count: usize,
    len: usize,
    purse: &mut Purse,
    disk: &mut D,
) -> Result<(), StreamFault>
    requires short { len ≤ 12000 }
    requires bytes { len + 251 ≤ length bytes.now }
    requires can { CanAdd (D.told disk.old) lot.old purse.old }
    ensures can { OnOk result (CanAdd (D.told disk.new) lot.new purse.new) }
    ensures writes { Writes (D.told disk.old) (D.told disk.new) purse.old purse.new lot.old lot.new }
{
    let mut number = 0;
    'rows: while number < count {
        match add(lot, row_of(bytes, number, len), purse, disk) {
            Ok(()) => number += 1,
            Err(fault) => return Err(fault),
        }
    }
    Ok(())
}

/// Reads the records to the end. How many of them, from the first on, are the right ones.
fn read<D: Spill>(
    lot: &mut Lot,
    bytes: &[u8],
    len: usize,
    disk: &mut D,
) -> Result<usize, StreamFault>
    requires bytes { len + 251 ≤ length bytes.now }
    requires ready { IsRewound lot.old }
    requires known { KnowsRows (D.told disk.old) (IsLeft lot.old (D.told disk.old)) }
    ensures { ReadsOn (D.told disk.old) (D.told disk.new) lot.old lot.new }
{
    let mut number = 0;
    'records: loop {
        match lot.read_next(disk) {
            Ok(true) => number = count_row::<D, Lot>(lot, bytes, number, len),
            Ok(false) => return Ok(number),
            Err(fault) => return Err(fault),
        }
    }
}

/// One more where the stream shows the record of this number.
fn count_row<D: Spill, R: RecordStream<D>>(
    stream: &R,
    bytes: &[u8],
    number: usize,
    len: usize,
) -> usize
    requires { len + 251 ≤ length bytes.now }
{
    match stream.head() {
        Some(row) => count_if(is_row(&row, row_of(bytes, number, len)), number),
        None => number,
    }
}

/// One more where it is so.
fn count_if(is: bool, number: usize) -> usize {
    if is { number.saturating_add(1) } else { number }
}

/// Reads the records from the first on.
fn read_again<D: Spill>(
    lot: &mut Lot,
    bytes: &[u8],
    len: usize,
    purse: &mut Purse,
    disk: &mut D,
) -> Result<usize, StreamFault>
    requires bytes { len + 251 ≤ length bytes.now }
    requires can { CanRead (D.told disk.old) lot.old purse.old }
    ensures can { CanRead (D.told disk.new) lot.new purse.new }
    ensures reads { Reads (D.told disk.old) (D.told disk.new) purse.old purse.new lot.old lot.new }
{
    let _begun = lot.rewind(purse, disk);
    read(lot, bytes, len, disk)
}

/// Adds the first records, leaves at most `room` segments in the lot, and reads all of them twice. How many
/// came back both times together.
fn twice<D: Spill>(
    lot: &mut Lot,
    bytes: &[u8],
    count: usize,
    len: usize,
    purse: &mut Purse,
    disk: &mut D,
) -> Result<usize, StreamFault>
    requires short { len ≤ 12000 }
    requires bytes { len + 251 ≤ length bytes.now }
    requires can { CanAdd (D.told disk.old) lot.old purse.old }
    requires enough { lot.old.stored.room + lot.old.feed.reach ≤ length purse.old.pages + length (held lot.old) }
    ensures { Writes (D.told disk.old) (D.told disk.new) purse.old purse.new lot.old lot.new }
{
    match settle(lot, bytes, count, len, purse, disk) {
        Ok(()) => read_twice(lot, bytes, len, purse, disk),
        Err(fault) => Err(fault),
    }
}

/// Adds the first records, and leaves at most `room` segments in the lot.
fn settle<D: Spill>(
    lot: &mut Lot,
    bytes: &[u8],
    count: usize,
    len: usize,
    purse: &mut Purse,
    disk: &mut D,
) -> Result<(), StreamFault>
    requires short { len ≤ 12000 }
    requires bytes { len + 251 ≤ length bytes.now }
    requires can { CanAdd (D.told disk.old) lot.old purse.old }
    requires enough { lot.old.stored.room + lot.old.feed.reach ≤ length purse.old.pages + length (held lot.old) }
    ensures can { OnOk result (CanRead (D.told disk.new) lot.new purse.new) }
    ensures writes { Writes (D.told disk.old) (D.told disk.new) purse.old purse.new lot.old lot.new }
{
    match fill(lot, bytes, count, len, purse, disk) {
        Ok(()) => lot.rest(purse, disk),
        Err(fault) => Err(fault),
    }
}

/// Reads all records twice.
fn read_twice<D: Spill>(
    lot: &mut Lot,
    bytes: &[u8],
    len: usize,
    purse: &mut Purse,
    disk: &mut D,
) -> Result<usize, StreamFault>
    requires bytes { len + 251 ≤ length bytes.now }
    requires can { CanRead (D.told disk.old) lot.old purse.old }
    ensures { Reads (D.told disk.old) (D.told disk.new) purse.old purse.new lot.old lot.new }
{
    let first = match read_again(lot, bytes, len, purse, disk) {
        Ok(first) => first,
        Err(fault) => return Err(fault),
    };
    match read_again(lot, bytes, len, purse, disk) {
        Ok(second) => Ok(first.saturating_add(second)),
        Err(fault) => Err(fault),
    }
}

/// Leaves at most `room` segments in the lot, and reads all records twice, over a disk that doesn't tell.
pub(crate) fn rest_and_read<D: Spill>(
    lot: &mut Lot,
    bytes: &[u8],
    len: usize,
    purse: &mut Purse,
    disk: &mut D,
) -> Result<usize, StreamFault>
    requires bytes { len + 251 ≤ length bytes.now }
    requires untold { D.told disk.old ≡ None }
    requires room { length purse.old.pages + length (held lot.old) ≤ purse.old.room }
    requires enough { lot.old.stored.room + lot.old.feed.reach ≤ length purse.old.pages + length (held lot.old) }
    ensures { Writes (D.told disk.old) (D.told disk.new) purse.old purse.new lot.old lot.new }
{
    match lot.rest(purse, disk) {
        Ok(()) => read_twice(lot, bytes, len, purse, disk),
        Err(fault) => Err(fault),
    }
}

/// The same with a lot of its own, whose records touch at most 5 pages, and which is dropped.
fn with_lot<D: Spill>(
    lot: Lot,
    bytes: &[u8],
    count: usize,
    len: usize,
    purse: &mut Purse,
    disk: &mut D,
) -> Result<usize, StreamFault>
    requires short { len ≤ 12000 }
    requires bytes { len + 251 ≤ length bytes.now }
    requires fresh { lot ≡ empty lot.stored.room 5 }
    requires sized { count_other_size 4096 purse.old.pages ≡ 0 }
    requires room { length purse.old.pages ≤ purse.old.room }
    requires enough { lot.stored.room + 5 ≤ length purse.old.pages }
    ensures { (h : ℕ → ℕ → ℕ) → segment_sum h purse.new.pages ≡ segment_sum h purse.old.pages }
{
    let mut lot = lot;
    let answer = twice(&mut lot, bytes, count, len, purse, disk);
    let dropped = lot.drop_lot(purse, disk);
    lot.end();
    match dropped {
        Ok(()) => answer,
        Err(fault) => Err(fault),
    }
}

/// The same with segments of a pool of its own, which all go home.
pub(crate) fn run_on<D: Spill>(
    rt: &impl Abort,
    alloc: Global,
    disk: &mut D,
    room: u32,
    bytes: &[u8],
    count: usize,
    len: usize,
) -> Result<usize, StreamFault>
    requires short { len ≤ 12000 }
    requires bytes { len + 251 ≤ length bytes.now }
    requires room { room ≤ 7 }
{
    let mut pool = Pool::open(alloc, 12, 4_096).expect(rt, "no memory");
    let mut purse = pool.lease(12).expect(rt, "no memory");
    let lot = Lot::open(alloc, room, 5).expect(rt, "no memory");
    let answer = with_lot(lot, bytes, count, len, &mut purse, disk);
    pool.restore(purse);
    assert_eq!(rt; pool.free(), pool.total());
    pool.close();
    answer
}

/// Records that come by pages cut inside them, over a disk that doesn't tell.
pub(crate) fn run_cuts_on<D: Spill>(
    rt: &impl Abort,
    alloc: Global,
    disk: &mut D,
    stream: &[u8],
    bytes: &[u8],
    len: usize,
) -> Result<usize, StreamFault>
    requires bytes { len + 251 ≤ length bytes.now }
    requires untold { D.told disk.old ≡ None }
{
    let mut pool = Pool::open(alloc, 12, 4_096).expect(rt, "no memory");
    let mut purse = pool.lease(12).expect(rt, "no memory");
    let lot = Lot::open(alloc, 7, 5).expect(rt, "no memory");
    let answer = with_cuts(lot, stream, bytes, len, &mut purse, disk);
    pool.restore(purse);
    assert_eq!(rt; pool.free(), pool.total());
    pool.close();
    answer
}
