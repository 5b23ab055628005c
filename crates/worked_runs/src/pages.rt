ghost use Rattle.std.specs.Prelude.{◌≡◌, ◌≤◌, ◌++◌, ℕ, IfOk, drop, length};
ghost use Rattle.std.specs.Int.{to_be_bytes, w32};
ghost use Rattle.flow_outside.specs.Told.{IfTold};
ghost use Rattle.paged_view.specs.Pages.{used, IsSameSegment};
ghost use Rattle.segment_core.specs.Segments.{segment_sum};
ghost use Rattle.spool.specs.Ios.{HasSameParts};
ghost use Rattle.spool.specs.Runs.{IsRun};

use flow_outside::failure::{Failed, StreamFault};
use flow_outside::spill::Spill;
use paged_view::page::body_of;
use segment_core::{Pool, Purse, Segment};
use spool::discard::discard;
use spool::io::Io;
use spool::reader::RunReader;
use spool::run::Run;
use spool::writer::RunWriter;
use std::alloc::Global;
use std::process::Abort;

/// Says in a page that one byte is used, which is this one.
fn mark(page: &mut Segment, byte: u8)
    ensures used { used page.new ≡ 1 }
    ensures same { IsSameSegment page.old page.new }
{
    let _len = page.bytes().len();
    write_byte(page.bytes_mut(), byte);
    write_used(page.bytes_mut());
}

/// Writes the byte behind the header.
fn write_byte(bytes: &mut [u8], byte: u8)
    requires { 17 ≤ length bytes.old }
{
    bytes[16] = byte;
}

/// Writes that one byte is used.
fn write_used(bytes: &mut [u8])
    requires { 17 ≤ length bytes.old }
    ensures { bytes.new ≡ to_be_bytes w32 1 ++ drop 4 bytes.old }
{
    bytes[..4].copy_from_slice(&1_u32.to_be_bytes());
}

/// Writes a run of so many pages. Page i has the byte i, from 0.
fn write_run<D: Spill>(disk: &mut D, page: &mut Segment, count: u8) -> Result<Run, Failed>
    ensures same { IsSameSegment page.old page.new }
    ensures run { IfOk result (λ run. IfTold (D.told disk.new) (λ blocks. IsRun blocks (length page.old.bytes) run)) }
{
    let mut writer = RunWriter::start(disk)?;
    for number in 0..count {
        mark(page, number);
        let _body = body_of(page);
        writer.push(disk, page)?;
    }
    Ok(writer.close())
}

/// Reads a run. How many of its pages have the byte of their number.
fn read_run<D: Spill>(disk: &mut D, page: &mut Segment, run: &Run) -> Result<u64, StreamFault>
    requires { IfTold (D.told disk.old) (λ blocks. IsRun blocks (length page.old.bytes) run.now) }
    ensures tells { D.told disk.new ≡ D.told disk.old }
    ensures same { IsSameSegment page.old page.new }
{
    let mut reader = RunReader::start(run);
    let mut count = 0;
    'pages: loop {
        match reader.next(disk, page) {
            Ok(true) => count = count_mark(page, count),
            Ok(false) => return Ok(count),
            Err(fault) => return Err(fault),
        }
    }
}

/// One more where the page has the byte of this number.
fn count_mark(page: &Segment, count: u64) -> u64 {
    if u64::from(page.bytes()[16]) == count {
        return count.saturating_add(1);
    }
    count
}

/// Writes a run of so many pages, reads it twice, and ends it. How many pages came back both times
/// together.
fn there_and_back<D: Spill>(disk: &mut D, page: &mut Segment, count: u8) -> Result<u64, StreamFault>
    ensures { IsSameSegment page.old page.new }
{
    let run = match write_run(disk, page, count) {
        Ok(run) => run,
        Err(_) => return Err(StreamFault::Spill),
    };
    let first = match read_run(disk, page, &run) {
        Ok(first) => first,
        Err(fault) => return Err(fault),
    };
    let second = match read_run(disk, page, &run) {
        Ok(second) => second,
        Err(fault) => return Err(fault),
    };
    match discard(run, disk, page) {
        Ok(()) => Ok(first.saturating_add(second)),
        Err(fault) => Err(fault),
    }
}

/// The same with the segment on top of a purse, which goes back.
fn with_io<D: Spill>(rt: &impl Abort, io: &mut Io<'_, D>, count: u8) -> Result<u64, StreamFault>
    ensures all_used_bytes { HasSameParts io.old io.new }
    ensures room { io.new.purse.now.room ≡ io.old.purse.now.room }
    ensures segments { (h : ℕ → ℕ → ℕ) → segment_sum h io.new.purse.now.pages ≡ segment_sum h io.old.purse.now.pages }
{
    let mut page = io.purse.take().expect(rt, "no segment");
    let answer = there_and_back(io.disk, &mut page, count);
    io.purse.put(page);
    answer
}

/// The same with a purse and a disk, which come back.
fn with_parts<D: Spill>(
    rt: &impl Abort,
    purse: &mut Purse,
    disk: &mut D,
    count: u8,
) -> Result<u64, StreamFault>
    ensures { (h : ℕ → ℕ → ℕ) → segment_sum h purse.new.pages ≡ segment_sum h purse.old.pages }
{
    let mut io = Io { purse, disk };
    with_io(rt, &mut io, count)
}

/// The same with a segment of a pool of its own, which goes home.
pub(crate) fn run_on<D: Spill>(
    rt: &impl Abort,
    alloc: Global,
    disk: &mut D,
    count: u8,
) -> Result<u64, StreamFault> {
    let mut pool = Pool::open(alloc, 1, 4_096).expect(rt, "no memory");
    let mut purse = pool.lease(1).expect(rt, "no memory");
    let answer = with_parts(rt, &mut purse, disk, count);
    pool.restore(purse);
    assert_eq!(rt; pool.free(), pool.total());
    pool.close();
    answer
}
