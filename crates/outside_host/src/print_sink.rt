ghost use Rattle.std.specs.Prelude.{◌≡◌, None};

use crate::write_some::write_some;
use flow_outside::failure::Failed;
use flow_outside::sink::Sink;

/// What prints to one of the two standard outputs. It tells nothing of its bytes.
#[derive(Drop)]
pub struct PrintSink<'a, P: Print> {
    out: &'a P,
    faults: u64,
}

/// The standard output, over what prints to it.
pub type StdoutSink<'a, P> = PrintSink<'a, P>;

/// The standard error, over what prints to it.
pub type StderrSink<'a, P> = PrintSink<'a, P>;

impl<'a, P: Print + Drop> PrintSink<'a, P> {
    /// A sink over what prints.
    pub fn new(out: &'a P) -> PrintSink<'a, P>
        ensures { ⟦<PrintSink<'a, P> as Sink>⟧.fault_count result ≡ 0 }
    {
        PrintSink { out, faults: 0 }
    }
}

impl<'a, P: Print + Drop> Sink for PrintSink<'a, P> {
    ghost told = { λ _. None };

    ghost fault_count = { λ sink. sink.faults };

    fn write(&mut self, bytes: &[u8]) -> Result<usize, Failed> {
        write_some(self.out, &mut self.faults, bytes)
    }

    fn faults(&self) -> u64 {
        self.faults
    }
}
