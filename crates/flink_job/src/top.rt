ghost use Rattle.std.specs.Prelude.{◌≡◌, vec_len};
ghost use Rattle.flink_job.specs.Outcome.{IsOutcome};

use crate::ended::End;
use crate::words::run_words;
use flow_outside::gate::Gate;
use flow_outside::shelf::Shelf;
use flow_outside::sink::Sink;
use flow_outside::spill::Spill;
use flow_outside::words::Words;
use job_report::fault::Fault;
use job_words::program::Program;
use std::alloc::Global;
use std::thread::Threads;

/// How a run of the program ended.
#[derive(Drop)]
pub struct Outcome<D: Spill> {
    /// 0 where all was written, else the status of the fault.
    pub status: u8,
    pub fault: Option<Fault>,
    /// The disks, in their order.
    pub disks: Vec<D>,
}

/// Runs the program `flink_run`: the words ask to check a plan, for the segments that it needs, or for its
/// result; the shelf has the plan and the inputs, what was asked for is written to `out` and a fault's line
/// to `err`.
///
/// A run keeps all rows in memory: each source's, and those that a node gives.
pub fn flink_main<Rt: Threads + Sync, S: Shelf, K: Sink, E: Sink, D: Spill + Send, G: Gate + Sync>(
    _rt: &Rt,
    alloc: Global,
    words: &Words,
    shelf: &mut S,
    out: &mut K,
    err: &mut E,
    disks: Vec<D>,
    _gate: &G,
) -> Outcome<D>
    requires disks { vec_len disks ≡ 32 }
    requires readers { S.living shelf.old ≡ 0 }
    ensures outcome { IsOutcome Program.FlinkRun words.now
        (record { told = S.told shelf.old; before = S.faults_at shelf.old; after = S.faults_at shelf.new; living = S.living shelf.new })
        (record { old = K.told out.old; new = K.told out.new; before = K.fault_count out.old; after = K.fault_count out.new })
        (record { old = E.told err.old; new = E.told err.new; before = E.fault_count err.old; after = E.fault_count err.new })
        result.status result.fault }
    ensures disks { result.disks.items ≡ disks.items }
{
    let End { status, fault } = run_words(alloc, Program::FlinkRun, words, shelf, out, err);
    Outcome {
        status,
        fault,
        disks,
    }
}

/// Runs the program `plain_run`: the words ask for the result of a plan of any ops, which is evaluated as its
/// definitions go.
pub fn plain_main<S: Shelf, K: Sink, E: Sink>(
    alloc: Global,
    words: &Words,
    shelf: &mut S,
    out: &mut K,
    err: &mut E,
) -> End
    requires { S.living shelf.old ≡ 0 }
    ensures { IsOutcome Program.PlainRun words.now
        (record { told = S.told shelf.old; before = S.faults_at shelf.old; after = S.faults_at shelf.new; living = S.living shelf.new })
        (record { old = K.told out.old; new = K.told out.new; before = K.fault_count out.old; after = K.fault_count out.new })
        (record { old = E.told err.old; new = E.told err.new; before = E.fault_count err.old; after = E.fault_count err.new })
        result.status result.fault }
{
    run_words(alloc, Program::PlainRun, words, shelf, out, err)
}
