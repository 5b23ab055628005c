ghost use Rattle.std.specs.Prelude.{◌≡◌, ℕ, ◌+◌, ◌<◌, ◌≤◌, [], ◌∷◌, true, None, OnOk, length};
ghost use Rattle.lot_store.specs.Lots.{empty, held};
ghost use Rattle.lot_store.specs.Storage.{Preserves, pair};
ghost use Rattle.segment_core.specs.Segments.{segment_sum};
ghost use Rattle.row_pipe.specs.Pipes.{Passes};

use crate::lots::{Given, fill, read_all};
use expr_core::scratch::Scratch;
use flow_outside::failure::StreamFault;
use flow_outside::spill::Spill;
use lot_store::lot::Lot;
use row_pipe::pipe::pipe;
use row_pipe::row_pipe::RowPipe;
use segment_core::{Pool, Purse};
use spool::io::Io;
use std::alloc::Global;
use std::process::Abort;

/// What goes in, how often, and what should come out for it.
#[derive(Clone, Copy)]
pub(crate) struct Records<'a> {
    pub given: &'a [&'a [u8]],
    pub count: usize,
    pub wanted: &'a [&'a [u8]],
}

/// Passes the rows of one lot to another.
fn pass<D: Spill>(
    p: &RowPipe,
    input: &mut Lot,
    out: &mut Lot,
    s: &mut Scratch,
    purse: &mut Purse,
    disk: &mut D,
) -> Result<(), StreamFault>
    requires untold { D.told disk.old ≡ None }
    requires supply { input.old.feed.reach < length purse.old.pages }
    requires room { length purse.old.pages + (length (held input.old) + length (held out.old)) ≤ purse.old.room }
    requires rests { length (held input.old) ≤ input.old.stored.room }
    ensures passes { Passes (D.told disk.old) (D.told disk.new) input.old input.new out.old out.new purse.old purse.new }
    ensures read { OnOk result (length (held input.new) ≤ input.new.stored.room) }
    ensures written { OnOk result (length (held out.new) ≤ out.new.stored.room) }
{
    let mut io = Io { purse, disk };
    pipe(p, input, out, s, &mut io)
}

/// Fills a lot, brings it to rest, passes its rows on, and reads what came out.
fn fill_and_pass<D: Spill>(
    p: &RowPipe,
    input: &mut Lot,
    out: &mut Lot,
    s: &mut Scratch,
    records: Records<'_>,
    purse: &mut Purse,
    disk: &mut D,
) -> Result<Given, StreamFault>
    requires some { 0 < length records.given.now }
    requires untold { D.told disk.old ≡ None }
    requires fresh { input.old ≡ empty input.old.stored.room 3 }
    requires fresh_out { out.old ≡ empty input.old.stored.room 3 }
    requires enough { input.old.stored.room + input.old.stored.room + 8 ≤ length purse.old.pages }
    requires room { length purse.old.pages ≤ purse.old.room }
    ensures { Preserves (pair (D.told disk.old) purse.old input.old out.old)
        (pair (D.told disk.new) purse.new input.new out.new) (0 ∷ 1 ∷ []) (0 ∷ 1 ∷ []) true }
{
    match fill(input, records.given, records.count, purse, disk) {
        Ok(()) => (),
        Err(fault) => return Err(fault),
    }
    match input.rest(purse, disk) {
        Ok(()) => (),
        Err(fault) => return Err(fault),
    }
    match pass(p, input, out, s, purse, disk) {
        Ok(()) => read_all(out, records.wanted, purse, disk),
        Err(fault) => Err(fault),
    }
}

/// The same with a segment kept back, with which both lots are dropped.
fn with_lots<D: Spill>(
    p: &RowPipe,
    input: Lot,
    out: Lot,
    s: &mut Scratch,
    records: Records<'_>,
    purse: &mut Purse,
    disk: &mut D,
) -> Result<Given, StreamFault>
    requires some { 0 < length records.given.now }
    requires untold { D.told disk.old ≡ None }
    requires fresh { input ≡ empty input.stored.room 3 }
    requires fresh_out { out ≡ empty input.stored.room 3 }
    requires enough { input.stored.room + input.stored.room + 9 ≤ length purse.old.pages }
    requires room { length purse.old.pages ≤ purse.old.room }
    ensures { (h : ℕ → ℕ → ℕ) → segment_sum h purse.new.pages ≡ segment_sum h purse.old.pages }
{
    let mut input = input;
    let mut out = out;
    let answer = match purse.take() {
        Some(spare) => {
            let answer = fill_and_pass(p, &mut input, &mut out, s, records, purse, disk);
            purse.put(spare);
            answer
        }
        None => unreachable!(),
    };
    let first = input.drop_lot(purse, disk);
    let second = out.drop_lot(purse, disk);
    input.end();
    out.end();
    match first {
        Ok(()) => match second {
            Ok(()) => answer,
            Err(fault) => Err(fault),
        },
        Err(fault) => Err(fault),
    }
}

/// The same with segments of a pool of its own, which all go home. Each lot keeps up to `room` pages.
pub(crate) fn run_on<D: Spill>(
    rt: &impl Abort,
    alloc: Global,
    p: &RowPipe,
    room: u32,
    records: Records<'_>,
    disk: &mut D,
) -> Result<Given, StreamFault>
    requires some { 0 < length records.given.now }
    requires untold { D.told disk.old ≡ None }
    requires room { room ≤ 5 }
{
    let mut pool = Pool::open(alloc, 20, 4_096).expect(rt, "no memory");
    let mut purse = pool.lease(20).expect(rt, "no memory");
    let input = Lot::open(alloc, room, 3).expect(rt, "no memory");
    let out = Lot::open(alloc, room, 3).expect(rt, "no memory");
    let mut scratch = Scratch::open(alloc).expect(rt, "no memory");
    let answer = with_lots(p, input, out, &mut scratch, records, &mut purse, disk);
    pool.restore(purse);
    assert_eq!(rt; pool.free(), pool.total());
    pool.close();
    answer
}
