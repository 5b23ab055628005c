ghost use Rattle.std.specs.Prelude.{◌≡◌, ◌≢◌, ◌↔◌, ◌<◌, ◌∷◌, ◌-◌, ℕ, true, false, Some, Ok, Err, IsErrOf, OnOk, length};
ghost use Rattle.flow_outside.specs.Blocks.{Blocks, HoldsPage};
ghost use Rattle.flow_outside.specs.Causes.{HasCause, HasStreamCause};
ghost use Rattle.flow_outside.specs.Told.{IfTold};
ghost use Rattle.paged_view.specs.Pages.{IsSameSegment};
ghost use Rattle.spool.specs.Reading.{HasRead, IsReadable, IsUnread};
ghost use Rattle.spool.specs.Runs.{IsRun, pages_at};

use crate::header::{is_sound, next_block};
pub use crate::place::RunReader;
use crate::run::Run;
use flow_outside::failure::{Failed, StreamFault};
use flow_outside::spill::Spill;
use segment_core::Segment;

impl RunReader {
    /// A reader at the first page of a run.
    pub fn start(run: &Run) -> RunReader
        ensures at { result.at ≡ run.now.first }
        ensures all { (result.left ≡ run.now.pages) × (result.pages ≡ run.now.pages) }
        ensures none { result.block ≡ 0 }
        ensures readable { (blocks : Blocks) (size : ℕ) → IsRun blocks size run.now →
            IsReadable blocks size result }
    {
        RunReader {
            at: run.first,
            left: run.pages,
            pages: run.pages,
            block: 0,
        }
    }

    /// Reads the next page: false exactly after the last one. No block changes.
    ///
    /// `Spill` only where the disk's count of faults rose in this call; then the reader is as it was, and
    /// the page's bytes are open. `Damaged` exactly where what was read can't be the page of that number
    /// in a run, which is so only over a disk that doesn't tell; it has the block that was read.
    pub fn next<D: Spill>(&mut self, disk: &mut D, page: &mut Segment) -> Result<bool, StreamFault>
        requires { IfTold (D.told disk.old) (λ blocks. IsReadable blocks (length page.old.bytes) self.old) }
        ensures cause { HasStreamCause (D.fault_count disk.old) (D.fault_count disk.new) (D.told disk.old) result }
        ensures tells { D.told disk.new ≡ D.told disk.old }
        ensures given { D.given disk.new ≡ D.given disk.old }
        ensures same { IsSameSegment page.old page.new }
        ensures end { result ≡ Ok false ↔ (self.old.left ≡ 0) }
        ensures at_end { result ≡ Ok false → (self.new ≡ self.old) × (page.new ≡ page.old) }
        ensures moved { result ≡ Ok true → HasRead self.old self.new page.new.bytes }
        ensures read { result ≡ Ok true → IfTold (D.told disk.old)
            (λ blocks. blocks self.old.at ≡ Some (Some page.new.bytes)) }
        ensures pages { result ≡ Ok true → IfTold (D.told disk.old) (λ blocks.
            pages_at blocks self.old.at self.old.left
            ≡ page.new.bytes ∷ pages_at blocks self.new.at self.new.left) }
        ensures readable { IfTold (D.told disk.old)
            (λ blocks. IsReadable blocks (length page.old.bytes) self.new) }
        ensures spill { IsErrOf result StreamFault.Spill → self.new ≡ self.old }
        ensures damaged { (block : ℕ) → IsErrOf result (StreamFault.Damaged block) →
            IsUnread self.old self.new page.new.bytes block }
    {
        if self.left == 0 {
            return Ok(false);
        }
        match fetch(disk, self.at, page) {
            Ok(()) => self.step(page),
            Err(_) => Err(StreamFault::Spill),
        }
    }

    /// The block that was read last, 0 where none was read.
    pub fn block(&self) -> u64
        ensures { result ≡ self.now.block }
    {
        self.block
    }

    // Goes on behind the page that was read, where it can be the next one.
    fn step(&mut self, page: &Segment) -> Result<bool, StreamFault>
        requires { 0 < self.old.left }
        ensures moved { result ≡ Ok true → HasRead self.old self.new page.now.bytes }
        ensures damaged { (block : ℕ) → IsErrOf result (StreamFault.Damaged block) →
            IsUnread self.old self.new page.now.bytes block }
        ensures more { result ≢ Ok false }
        ensures read { result ≢ Err StreamFault.Spill }
    {
        self.block = self.at;
        let page = page.bytes();
        if !is_sound(page, self.pages - self.left) {
            return Err(StreamFault::Damaged { block: self.at });
        }
        self.at = next_block(page);
        self.left -= 1;
        Ok(true)
    }
}

/// Reads the page of a block.
fn fetch<D: Spill>(disk: &mut D, block: u64, page: &mut Segment) -> Result<(), Failed>
    requires { IfTold (D.told disk.old) (λ blocks. HoldsPage blocks block (length page.old.bytes)) }
    ensures cause { HasCause (D.fault_count disk.old) (D.fault_count disk.new) result }
    ensures tells { D.told disk.new ≡ D.told disk.old }
    ensures given { D.given disk.new ≡ D.given disk.old }
    ensures same { IsSameSegment page.old page.new }
    ensures read { OnOk result
        (IfTold (D.told disk.old) (λ blocks. blocks block ≡ Some (Some page.new.bytes))) }
{
    let _len = page.bytes().len();
    disk.get(block, page.bytes_mut())
}
