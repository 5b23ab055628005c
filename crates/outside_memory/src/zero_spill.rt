ghost use Rattle.std.specs.Prelude.{◌≡◌, ◌+◌, ◌^◌, ◌<◌, ◌≤◌, IsOk, OnOk, OnErr, All, None};
ghost use Rattle.flow_outside.specs.Causes.{HasCause};

use flow_outside::failure::{Failed, count_fault};
use flow_outside::spill::Spill;

/// How many blocks a disk gives in its life.
const BLOCKS: u64 = 1 << 44;

/// A disk that keeps nothing: each page that is read back is of zero bytes. It tells nothing. It
/// fails only where its blocks are used up.
#[derive(Debug, Drop)]
pub struct ZeroSpill {
    given: u64,
    faults: u64,
}

impl ZeroSpill {
    /// A disk that has given no block.
    pub fn new() -> ZeroSpill
        ensures tells { ⟦<ZeroSpill as Spill>⟧.told result ≡ None }
        ensures given { ⟦<ZeroSpill as Spill>⟧.given result ≡ 0 }
        ensures no_fault { ⟦<ZeroSpill as Spill>⟧.fault_count result ≡ 0 }
    {
        ZeroSpill {
            given: 0,
            faults: 0,
        }
    }
}

impl Spill for ZeroSpill {
    ghost told = { λ _. None };

    ghost fault_count = { λ disk. disk.faults };

    ghost given = { λ disk. disk.given };

    fn fresh(&mut self) -> Result<u64, Failed>
        ensures cause { HasCause self.old.faults self.new.faults result }
        ensures counted { OnOk result ((self.old.given < 2 ^ 44) × (self.new.given ≡ self.old.given + 1)) }
        ensures used_up { OnErr result ((2 ^ 44 ≤ self.old.given) × (self.new.given ≡ self.old.given)) }
    {
        if self.given < BLOCKS {
            self.given += 1;
            return Ok(self.given);
        }
        Err(count_fault(&mut self.faults))
    }

    fn put(&mut self, _block: u64, _page: &[u8]) -> Result<(), Failed>
        ensures { IsOk result × (self.new ≡ self.old) }
    {
        Ok(())
    }

    fn get(&mut self, _block: u64, page: &mut [u8]) -> Result<(), Failed>
        ensures kept { IsOk result × (self.new ≡ self.old) }
        ensures zeros { All (λ byte. byte ≡ 0) page.new }
    {
        page.fill(0);
        Ok(())
    }

    fn free(&mut self, _block: u64) {}

    fn faults(&self) -> u64 {
        self.faults
    }
}
