//! The program `flink_run`: it makes the real files, outputs and disks, calls the top call and ends with its
//! status. It stands on the top call and on the outside's objects.
//!
//! Its one promise is the top call's.
#![tactic(auto)]

ghost use Rattle.std.specs.Prelude.{◌≡◌, IfOk, Option, vec_len};
ghost use Rattle.job_report.specs.declared.fault.Fault.{Fault};
ghost use Rattle.flink_job.specs.Outcome.{IsOutcome};

use flink_job::top::{Outcome, flink_main};
use flow_outside::failure::Memory;
use flow_outside::shelf::Shelf;
use flow_outside::sink::Sink;
use flow_outside::words::Words;
use job_words::program::Program;
use outside_host::command_line::words_of;
use outside_host::file_shelf::FileShelf;
use outside_host::print_sink::{StderrSink, StdoutSink};
use outside_memory::no_gate::NoGate;
use outside_memory::zero_spill::ZeroSpill;
use std::alloc::Global;
use std::process::ExitCode;
use std::thread::Threads;

/// The most disks of a run.
const DISKS: usize = 32;

/// The status of want of memory before the top call.
const OUT_OF_MEMORY: u8 = 9;

fn main(rt: HostRuntime) -> ExitCode {
    let alloc = rt.alloc();
    let (Ok(words), Ok(mut shelf), Ok(disks)) = (
        words_of(&rt, alloc),
        FileShelf::new(&rt, alloc),
        empty_disks(alloc),
    ) else {
        return ExitCode::from(OUT_OF_MEMORY);
    };
    let stderr = rt.stderr();
    let mut out = StdoutSink::new(&rt);
    let mut err = StderrSink::new(&stderr);
    let status = run(&rt, alloc, &words, &mut shelf, &mut out, &mut err, disks);
    ExitCode::from(status)
}

/// Does what the words ask for, over these disks, and gives the status to end with.
fn run<Rt: Threads + Sync, S: Shelf, K: Sink, E: Sink>(
    rt: &Rt,
    alloc: Global,
    words: &Words,
    shelf: &mut S,
    out: &mut K,
    err: &mut E,
    disks: Vec<ZeroSpill>,
) -> u8
    requires disks { vec_len disks ≡ 32 }
    requires readers { S.living shelf.old ≡ 0 }
    ensures { (fault : Option Fault) × IsOutcome Program.FlinkRun words.now
        (record { told = S.told shelf.old; before = S.faults_at shelf.old; after = S.faults_at shelf.new; living = S.living shelf.new })
        (record { old = K.told out.old; new = K.told out.new; before = K.fault_count out.old; after = K.fault_count out.new })
        (record { old = E.told err.old; new = E.told err.new; before = E.fault_count err.old; after = E.fault_count err.new })
        result fault }
{
    let Outcome { status, .. } = flink_main(rt, alloc, words, shelf, out, err, disks, &NoGate);
    status
}

/// The disks of a run. Nothing is spilled yet.
fn empty_disks(alloc: Global) -> Result<Vec<ZeroSpill>, Memory>
    ensures { IfOk result (λ disks. vec_len disks ≡ 32) }
{
    let mut disks = Vec::with_capacity(alloc, DISKS)?;
    for count in 0..DISKS {
        disks.push(ZeroSpill::new())?;
    }
    Ok(disks)
}
