ghost use Rattle.std.specs.Prelude.{◌≡◌};
ghost use Rattle.job_report.specs.Effects.{Reports};
ghost use Rattle.job_report.specs.Lines.{report_of, status_of};
ghost use Rattle.flink_job.specs.Stops.{fault_in, name_in};

use flow_outside::sink::Sink;
use job_inputs::inputs::Stopped;
use job_report::fault::Fault;
use job_report::report::{status_of, write_line};
use job_words::program::Program;

/// How a program's words ended.
#[derive(Drop)]
pub struct End {
    /// 0 where all was written, else the status of the fault.
    pub status: u8,
    pub fault: Option<Fault>,
}

/// The end of what stopped, or didn't; a fault's line is written as far as `err` takes it.
pub fn ended<E: Sink>(err: &mut E, program: Program, stopped: Option<Stopped<'_>>) -> End
    ensures fault { result.fault ≡ fault_in stopped.entry }
    ensures status { result.status ≡ status_of (fault_in stopped.entry) }
    ensures reported { Reports
        (record { old = E.told err.old; new = E.told err.new; before = E.fault_count err.old; after = E.fault_count err.new })
        (report_of program (name_in stopped.entry) (fault_in stopped.entry)) }
{
    let Some(Stopped { fault, name }) = stopped else {
        return End {
            status: 0,
            fault: None,
        };
    };
    let _ = write_line(err, program, name, &fault);
    let fault = Some(fault);
    let status = status_of(&fault);
    End { status, fault }
}
