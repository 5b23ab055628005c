ghost use Rattle.std.specs.Prelude.{◌≡◌, ◌↔◌, ℕ, ◌<◌, ◌≤◌, true, false, [], List, None, Ok, IfOk, IsOk, IsErrOf, MatchResult, is_some};
ghost use Rattle.flow_outside.specs.Causes.{HasStreamCause};
ghost use Rattle.flow_outside.specs.Told.{IfTold};
ghost use Rattle.paged_view.specs.Streams.{Advances};
ghost use Rattle.page_feed.specs.Feeding.{KeepsPages};
ghost use Rattle.page_feed.specs.Feeds.{HasLeft, IsStarted, block_of, most_left};

use crate::feed::Feed;
use flow_outside::failure::StreamFault;
use flow_outside::spill::Spill;

impl Feed {
    /// Moves to the next record, which it then shows: false exactly at the end. It reads each page of the
    /// run once, when the first record that touches it is reached, and changes no block of the disk.
    ///
    /// `Spill` comes only where the disk's count of faults rose in this call, and `Damaged`, with the block
    /// that was read last, only over a disk that doesn't tell. After either no record is shown.
    pub fn advance<D: Spill>(&mut self, disk: &mut D) -> Result<bool, StreamFault>
        requires started { IsStarted self.old }
        requires known { IfTold (D.told disk.old)
            (λ blocks. (rows : List (List ℕ)) × HasLeft blocks self.old rows) }
        ensures rows { IfOk result (λ more. IfTold (D.told disk.old) (λ blocks. (rows : List (List ℕ)) →
            HasLeft blocks self.old rows → Advances rows more self.new.shown (HasLeft blocks self.new))) }
        ensures shows { IsStarted self.new × MatchResult result
            (λ more. is_some self.new.shown ≡ more)
            (λ _. self.new.shown ≡ None) }
        ensures shorter { (most_left self.new ≤ most_left self.old)
            × (result ≡ Ok true → most_left self.new < most_left self.old) }
        ensures keeps { KeepsPages (D.told disk.old) self.old self.new }
        ensures cause { HasStreamCause (D.fault_count disk.old) (D.fault_count disk.new) (D.told disk.old) result
            × ((block : ℕ) → IsErrOf result (StreamFault.Damaged block) → block ≡ block_of self.new.run) }
        ensures disk { (D.told disk.new ≡ D.told disk.old) × (D.given disk.new ≡ D.given disk.old)
            × (self.old.run ≡ None →
            (disk.new ≡ disk.old) × ((self.new.run ≡ None) × (IsErrOf result StreamFault.Spill → ⊥))) }
    {
        'pages: loop {
            if self.show_next() {
                return Ok(true);
            }
            self.put_all_away();
            match self.give_next(disk) {
                Ok(true) => (),
                Ok(false) => return self.end_of_text(),
                Err(fault) => return Err(fault),
            }
        }
    }

    // The answer where the reader has no whole record and no page can be given to it.
    fn end_of_text(&self) -> Result<bool, StreamFault>
        ensures end { IsOk result ↔ (self.now.reader.text ≡ []) }
        ensures none { IfOk result (λ more. more ≡ false) }
        ensures damaged { (block : ℕ) → IsErrOf result (StreamFault.Damaged block) →
            block ≡ block_of self.now.run }
        ensures read { IsErrOf result StreamFault.Spill → ⊥ }
    {
        if self.reader.is_read_out() {
            Ok(false)
        } else {
            Err(StreamFault::Damaged {
                block: self.block(),
            })
        }
    }
}
