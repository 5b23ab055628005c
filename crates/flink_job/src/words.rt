ghost use Rattle.std.specs.Prelude.{◌≡◌};
ghost use Rattle.flink_job.specs.Outcome.{IsOutcome};

use crate::ended::{End, ended};
use crate::run::{run_request, unnamed};
use flow_outside::failure::Memory;
use flow_outside::shelf::Shelf;
use flow_outside::sink::Sink;
use flow_outside::words::Words;
use job_report::fault::Fault;
use job_words::program::Program;
use job_words::request::request_of;
use std::alloc::Global;

/// Does what a program's words ask for, and tells a fault.
pub fn run_words<S: Shelf, K: Sink, E: Sink>(
    alloc: Global,
    program: Program,
    words: &Words,
    shelf: &mut S,
    out: &mut K,
    err: &mut E,
) -> End
    requires { S.living shelf.old ≡ 0 }
    ensures { IsOutcome program words.now
        (record { told = S.told shelf.old; before = S.faults_at shelf.old; after = S.faults_at shelf.new; living = S.living shelf.new })
        (record { old = K.told out.old; new = K.told out.new; before = K.fault_count out.old; after = K.fault_count out.new })
        (record { old = E.told err.old; new = E.told err.new; before = E.fault_count err.old; after = E.fault_count err.new })
        result.status result.fault }
{
    match request_of(alloc, program, words) {
        Err(Memory) => ended(err, program, Some(unnamed(Fault::Memory))),
        Ok(None) => ended(err, program, Some(unnamed(Fault::Usage))),
        Ok(Some(request)) => {
            let stopped = run_request(alloc, program, &request, shelf, out);
            ended(err, program, stopped)
        }
    }
}
