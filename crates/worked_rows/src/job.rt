ghost use Rattle.std.specs.Prelude.{◌≡◌, IfOk, vec_len};

use crate::plans::PLANS;
use flink_job::top::{flink_main, plain_main};
use flow_outside::failure::Memory;
use flow_outside::shelf::Shelf;
use flow_outside::words::Words;
use outside_memory::file_name::FileName;
use outside_memory::mem_shelf::MemShelf;
use outside_memory::mem_sink::MemSink;
use outside_memory::no_gate::NoGate;
use outside_memory::zero_spill::ZeroSpill;
use std::alloc::Global;
use std::test::Fail;
use std::thread::Threads;

/// Runs `flink_main` over the plans and these files in memory, and tells how it ended. Call number
/// `failing` of the shelf fails, counted from 1, and the output has room for so many bytes.
pub fn run_flink<Rt: Threads + Sync>(
    rt: &Rt,
    alloc: Global,
    line: &str,
    files: &str,
    failing: u64,
    room: u64,
) -> Result<String, Fail> {
    let words = words_of(alloc, line)?;
    let mut shelf = shelf_of(alloc, files, failing)?;
    let mut out = MemSink::new(alloc, room);
    let mut err = MemSink::new(alloc, 1000);
    let disks = empty_disks(alloc)?;
    let outcome = flink_main(
        rt, alloc, &words, &mut shelf, &mut out, &mut err, disks, &NoGate,
    );
    told(alloc, outcome.status, &out, &err)
}

/// Runs `plain_main` over the plans and these files in memory, and tells how it ended.
pub fn run_plain(alloc: Global, line: &str, files: &str) -> Result<String, Fail> {
    let words = words_of(alloc, line)?;
    let mut shelf = shelf_of(alloc, files, 0)?;
    let mut out = MemSink::new(alloc, 1_000_000);
    let mut err = MemSink::new(alloc, 1000);
    let end = plain_main(alloc, &words, &mut shelf, &mut out, &mut err);
    told(alloc, end.status, &out, &err)
}

/// The status, what was printed, and behind `!` what was told of a fault.
fn told(alloc: Global, status: u8, out: &MemSink, err: &MemSink) -> Result<String, Fail> {
    let printed = str::from_utf8(out.text())?;
    let fault = str::from_utf8(err.text())?;
    if fault.is_empty() {
        Ok(format!(in alloc; "{status} {printed}")?)
    } else {
        Ok(format!(in alloc; "{status} {printed}! {fault}")?)
    }
}

/// The plans, and the files of a row: `NAME:TEXT` between blanks, in which `/` ends a line.
fn shelf_of(alloc: Global, files: &str, failing: u64) -> Result<MemShelf, Fail>
    ensures { IfOk result (λ shelf. ⟦<MemShelf as Shelf>⟧.living shelf ≡ 0) }
{
    let mut all = Vec::new(alloc);
    for plan in PLANS.split("\n\n") {
        let (name, text) = plan.split_once('\n').ok_or("a plan without a name")?;
        all.push(file(alloc, name, text)?)?;
    }
    for part in files.split(' ') {
        if let Some((name, text)) = part.split_once(':') {
            let lines = text.replace(alloc, '/', "\n")?;
            all.push(file(alloc, name, lines.as_str())?)?;
        }
    }
    Ok(MemShelf::new(alloc, all, vec![in alloc; failing]?)?)
}

fn file(alloc: Global, name: &str, text: &str) -> Result<(FileName, Vec<u8>), Memory> {
    let name = FileName::of(String::from_str(alloc, name)?);
    Ok((name, Vec::from_slice(alloc, text.as_bytes())?))
}

/// The words between blanks; none of an empty line.
fn words_of(alloc: Global, line: &str) -> Result<Words, Memory> {
    let mut words = Words::new(alloc);
    if !line.is_empty() {
        for word in line.split(' ') {
            words.push(word)?;
        }
    }
    Ok(words)
}

fn empty_disks(alloc: Global) -> Result<Vec<ZeroSpill>, Memory>
    ensures { IfOk result (λ disks. vec_len disks ≡ 32) }
{
    let mut disks = Vec::with_capacity(alloc, 32)?;
    for count in 0..32usize {
        disks.push(ZeroSpill::new())?;
    }
    Ok(disks)
}
