ghost use Rattle.std.specs.Prelude.{◌≡◌, ◌↔◌, IsTrue};
ghost use Rattle.outside_memory.specs.Calls.{NextFails, HasCalled};

/// The calls that were made, and which of them fail. Calls are counted from 1.
#[derive(Debug, Drop)]
pub(crate) struct Calls {
    made: u64,
    failing: Vec<u64>,
}

impl Calls {
    /// No call was made, and those of these numbers will fail.
    pub(crate) fn new(failing: Vec<u64>) -> Calls
        ensures { (result.made ≡ 0) × (result.failing ≡ failing) }
    {
        Calls { made: 0, failing }
    }

    /// Counts one more call, and tells whether it fails.
    pub(crate) fn next_fails(&mut self) -> bool
        ensures called { HasCalled self.old self.new }
        ensures listed { IsTrue result ↔ NextFails self.old }
    {
        self.made = self.made.saturating_add(1);
        self.failing.contains(&self.made)
    }
}
