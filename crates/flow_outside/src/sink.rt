ghost use Rattle.std.specs.Prelude.{◌≡◌, ℕ, ◌<◌, ◌≤◌, List, Option, IfOk, OnErr, length, take};
ghost use Rattle.flow_outside.specs.Causes.{HasCause};
ghost use Rattle.flow_outside.specs.Told.{Appends};

use crate::failure::Failed;

/// Something that takes bytes, one piece after another. Its count of faults never falls.
pub trait Sink: Drop {
    /// The bytes so far, where told.
    ghost told: { Self → Option (List ℕ) };

    /// The count of faults.
    ghost fault_count: { Self → ℕ };

    /// Takes the first bytes of `bytes`, and gives their number: at least one, where there is one.
    /// A failed write takes nothing.
    fn write(&mut self, bytes: &[u8]) -> Result<usize, Failed>
        ensures cause { HasCause (fault_count self.old) (fault_count self.new) result }
        ensures within { IfOk result (λ count. count ≤ length bytes.now) }
        ensures some { IfOk result (λ count. 0 < length bytes.now → 0 < count) }
        ensures appended { IfOk result
            (λ count. Appends (told self.old) (told self.new) (take count bytes.now)) }
        ensures refused { OnErr result (told self.new ≡ told self.old) };

    /// The count of faults.
    fn faults(&self) -> u64
        ensures { result ≡ fault_count self.now };
}
