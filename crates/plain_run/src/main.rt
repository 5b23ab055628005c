//! The program `plain_run`: it makes the real files and outputs, calls the plain program's top call and
//! ends with its status. It runs any accepted plan as the definitions go, and keeps in memory every row:
//! those of the sources, and those that each node gives. It stands on the top call and on the outside's
//! objects.
//!
//! Its one promise is the top call's.
#![tactic(auto)]

ghost use Rattle.std.specs.Prelude.{◌≡◌, Option};
ghost use Rattle.job_report.specs.declared.fault.Fault.{Fault};
ghost use Rattle.flink_job.specs.Outcome.{IsOutcome};

use flink_job::ended::End;
use flink_job::top::plain_main;
use flow_outside::shelf::Shelf;
use flow_outside::sink::Sink;
use flow_outside::words::Words;
use job_words::program::Program;
use outside_host::command_line::words_of;
use outside_host::file_shelf::FileShelf;
use outside_host::print_sink::{StderrSink, StdoutSink};
use std::alloc::Global;
use std::process::ExitCode;

/// The status of want of memory before the top call.
const OUT_OF_MEMORY: u8 = 9;

fn main(rt: HostRuntime) -> ExitCode {
    let alloc = rt.alloc();
    let (Ok(words), Ok(mut shelf)) = (words_of(&rt, alloc), FileShelf::new(&rt, alloc)) else {
        return ExitCode::from(OUT_OF_MEMORY);
    };
    let stderr = rt.stderr();
    let mut out = StdoutSink::new(&rt);
    let mut err = StderrSink::new(&stderr);
    let status = run(alloc, &words, &mut shelf, &mut out, &mut err);
    ExitCode::from(status)
}

/// Does what the words ask for, and gives the status to end with.
fn run<S: Shelf, K: Sink, E: Sink>(
    alloc: Global,
    words: &Words,
    shelf: &mut S,
    out: &mut K,
    err: &mut E,
) -> u8
    requires { S.living shelf.old ≡ 0 }
    ensures { (fault : Option Fault) × IsOutcome Program.PlainRun words.now
        (record { told = S.told shelf.old; before = S.faults_at shelf.old; after = S.faults_at shelf.new; living = S.living shelf.new })
        (record { old = K.told out.old; new = K.told out.new; before = K.fault_count out.old; after = K.fault_count out.new })
        (record { old = E.told err.old; new = E.told err.new; before = E.fault_count err.old; after = E.fault_count err.new })
        result fault }
{
    let End { status, .. } = plain_main(alloc, words, shelf, out, err);
    status
}
