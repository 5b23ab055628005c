ghost use Rattle.std.specs.Prelude.{◌≡◌, ℕ, ◌+◌, ◌^◌, ◌<◌, ◌≤◌, Option, Some, None, IfOk, OnOk, OnErr, length};
ghost use Rattle.flow_outside.specs.Causes.{HasCause};
ghost use Rattle.flow_outside.specs.Told.{IfTold};
ghost use Rattle.flow_outside.specs.Blocks.{Blocks, IsLive, HoldsPage, Becomes, IsGiven, BothTold};

use crate::failure::Failed;

/// A disk of blocks, each of which holds one page. Its count of faults never falls.
///
/// A block lives from `fresh` to `free`. The conditions on blocks bind where the disk tells.
pub trait Spill: Drop {
    /// The blocks, where told.
    ghost told: { Self → Option Blocks };

    /// The count of faults.
    ghost fault_count: { Self → ℕ };

    /// How many blocks the disk has given in its life.
    ghost given: { Self → ℕ };

    /// Gives a block that isn't live. A disk gives at most 2^44 blocks in its life, and then fails.
    fn fresh(&mut self) -> Result<u64, Failed>
        ensures cause { HasCause (fault_count self.old) (fault_count self.new) result }
        ensures counted { OnOk result
            ((given self.old < 2 ^ 44) × (given self.new ≡ given self.old + 1)) }
        ensures granted { IfOk result
            (λ block. BothTold (told self.old) (told self.new) (IsGiven block)) }
        ensures refused { OnErr result
            ((given self.new ≡ given self.old) × (told self.new ≡ told self.old)) };

    /// Writes a page into a block. After `Failed` the block's bytes are open.
    fn put(&mut self, block: u64, page: &[u8]) -> Result<(), Failed>
        requires { IfTold (told self.old) (λ blocks. IsLive blocks block) }
        ensures cause { HasCause (fault_count self.old) (fault_count self.new) result }
        ensures counted { given self.new ≡ given self.old }
        ensures written { OnOk result
            (BothTold (told self.old) (told self.new) (Becomes block (Some (Some page.now)))) }
        ensures refused { OnErr result
            (BothTold (told self.old) (told self.new) (Becomes block (Some None))) };

    /// Reads the page of a block, which was put with a page of this length. No block changes. After
    /// `Failed` the bytes of `page` are open.
    fn get(&mut self, block: u64, page: &mut [u8]) -> Result<(), Failed>
        requires { IfTold (told self.old) (λ blocks. HoldsPage blocks block (length page.old)) }
        ensures cause { HasCause (fault_count self.old) (fault_count self.new) result }
        ensures counted { given self.new ≡ given self.old }
        ensures tells { told self.new ≡ told self.old }
        ensures read { OnOk result
            (IfTold (told self.old) (λ blocks. blocks block ≡ Some (Some page.new))) };

    /// Ends the life of a block.
    fn free(&mut self, block: u64)
        requires { IfTold (told self.old) (λ blocks. IsLive blocks block) }
        ensures later { fault_count self.old ≤ fault_count self.new }
        ensures counted { given self.new ≡ given self.old }
        ensures freed { BothTold (told self.old) (told self.new) (Becomes block None) };

    /// The count of faults.
    fn faults(&self) -> u64
        ensures { result ≡ fault_count self.now };
}
