ghost use Rattle.std.specs.Prelude.{◌≡◌, ◌↔◌, IsTrue};
ghost use Rattle.outside_memory.specs.SpillCalls.{is_same_kind, is_listed_spill, made_of, HasCalledSpill, NextSpillFails};

/// A kind of call of a disk that may be told to fail.
#[derive(Clone, Copy, Debug)]
pub enum SpillCall {
    Fresh,
    Put,
    Get,
}

impl SpillCall {
    /// Whether both are calls of one kind.
    fn is(self, other: SpillCall) -> bool
        ensures { result ≡ is_same_kind self other }
    {
        match self {
            SpillCall::Fresh => matches!(other, SpillCall::Fresh),
            SpillCall::Put => matches!(other, SpillCall::Put),
            SpillCall::Get => matches!(other, SpillCall::Get),
        }
    }
}

/// The calls that were made of a disk, and which of them fail. Each kind is counted from 1.
#[derive(Debug, Drop)]
pub(crate) struct SpillCalls {
    fresh: u64,
    puts: u64,
    gets: u64,
    failing: Vec<(SpillCall, u64)>,
}

impl SpillCalls {
    /// No call was made, and those of these kinds and numbers will fail.
    pub(crate) fn new(failing: Vec<(SpillCall, u64)>) -> SpillCalls
        ensures { result ≡ record { fresh = 0; puts = 0; gets = 0; failing = failing } }
    {
        SpillCalls {
            fresh: 0,
            puts: 0,
            gets: 0,
            failing,
        }
    }

    /// Counts one more call of this kind, and tells whether it fails.
    pub(crate) fn next_fails(&mut self, call: SpillCall) -> bool
        ensures called { HasCalledSpill self.old self.new call }
        ensures listed { IsTrue result ↔ NextSpillFails self.old call }
    {
        let number = self.count(call);
        is_listed(&self.failing, call, number)
    }

    /// Counts one more call of this kind, and gives its number.
    fn count(&mut self, call: SpillCall) -> u64
        ensures called { HasCalledSpill self.old self.new call }
        ensures number { result ≡ made_of self.new call }
    {
        match call {
            SpillCall::Fresh => {
                self.fresh = self.fresh.saturating_add(1);
                self.fresh
            }
            SpillCall::Put => {
                self.puts = self.puts.saturating_add(1);
                self.puts
            }
            SpillCall::Get => {
                self.gets = self.gets.saturating_add(1);
                self.gets
            }
        }
    }
}

/// Whether the call of this kind and number is listed.
fn is_listed(failing: &Vec<(SpillCall, u64)>, call: SpillCall, number: u64) -> bool
    ensures { result ≡ is_listed_spill failing.now.items call number }
{
    failing
        .iter()
        .any(|listed| listed.0.is(call) && listed.1 == number)
}
