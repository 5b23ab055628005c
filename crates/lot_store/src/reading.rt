ghost use Rattle.std.specs.Prelude.{◌≡◌, ℕ, ◌+◌, ◌<◌, ◌≤◌, true, List, None, Ok, IfOk, IfSome, IsErrOf, MatchResult, is_some, length, option_map};
ghost use Rattle.flow_outside.specs.Blocks.{BothTold};
ghost use Rattle.flow_outside.specs.Causes.{HasStreamCause};
ghost use Rattle.flow_outside.specs.Told.{IfTold};
ghost use Rattle.lot_store.specs.LotKeeping.{Keeps, MovesSegments};
ghost use Rattle.lot_store.specs.LotCalls.{spilled_count};
ghost use Rattle.lot_store.specs.Lots.{HoldsRows, IsLeft, IsRewound, IsSound, StandsWith, held as segments_of, pages_of};
ghost use Rattle.page_feed.specs.Feeds.{HasLeft, block_of, lent, most_left as most_in};
ghost use Rattle.paged_view.specs.Seen.{seen_in};
ghost use Rattle.paged_view.specs.Streams.{Advances, KnowsRows};
ghost use Rattle.segment_core.specs.Segments.{SegmentView, segment_sum};

use crate::lot::Lot;
use flow_outside::failure::StreamFault;
use flow_outside::spill::Spill;
use paged_view::record_ref::RecordRef;
use paged_view::stream::RecordStream;
use segment_core::Purse;

impl Lot {
    // `rewind`, told by this lot alone.
    pub(crate) fn begin_again<D: Spill>(
        &mut self,
        purse: &mut Purse,
        disk: &mut D,
    ) -> Result<(), StreamFault>
        requires supply { self.old.feed.reach ≤ length purse.old.pages + length (lent self.old.feed) }
        requires room { length purse.old.pages + length (segments_of self.old) ≤ purse.old.room }
        requires sound { IsSound (D.told disk.old) self.old purse.old.pages }
        ensures always { result ≡ Ok tt }
        ensures disk { disk.new ≡ disk.old }
        ensures ready { IsRewound self.new }
        ensures rows { IfTold (D.told disk.old) (λ blocks. (rows : List (List ℕ)) →
            HoldsRows blocks self.old rows → HoldsRows blocks self.new rows ×
            HasLeft blocks self.new.feed rows) }
        ensures shown { self.new.feed.shown ≡ None }
        ensures block { block_of self.new.feed.run ≡ 0 }
        ensures none { self.new.read_last ≡ 0 }
        ensures pages { pages_of self.new ≡ pages_of self.old }
        ensures keeps { BothTold (D.told disk.old) (D.told disk.new)
            (Keeps self.old self.new purse.old.pages purse.new.pages) }
        ensures sound { IsSound (D.told disk.new) self.new purse.new.pages }
        ensures segments { MovesSegments self.old self.new purse.old.pages purse.new.pages }
        ensures room { purse.new.room ≡ purse.old.room }
        ensures fits { length purse.new.pages + length (segments_of self.new) ≤ purse.new.room }
        ensures reach { self.new.feed.reach ≡ self.old.feed.reach }
    {
        let _disk = disk;
        self.stop(purse);
        self.begin(purse);
        Ok(())
    }

    // `read_next`, told by this lot alone.
    pub(crate) fn step<D: Spill>(&mut self, disk: &mut D) -> Result<bool, StreamFault>
        requires ready { IsRewound self.old }
        requires known { KnowsRows (D.told disk.old) (IsLeft self.old (D.told disk.old)) }
        ensures ready { IsRewound self.new }
        ensures rows { IfOk result (λ more. (rows : List (List ℕ)) → IsLeft self.old (D.told disk.old) rows →
            Advances rows more self.new.feed.shown (IsLeft self.new (D.told disk.new))) }
        ensures shows { MatchResult result
            (λ more. is_some self.new.feed.shown ≡ more)
            (λ _. self.new.feed.shown ≡ None) }
        ensures later { most_in self.new.feed ≤ most_in self.old.feed }
        ensures falls { result ≡ Ok true → most_in self.new.feed < most_in self.old.feed }
        ensures segments { (h : ℕ → ℕ → ℕ) → segment_sum h (segments_of self.new)
            ≡ segment_sum h (segments_of self.old) }
        ensures tells { D.told disk.new ≡ D.told disk.old }
        ensures counted { D.given disk.new ≡ D.given disk.old }
        ensures cause { HasStreamCause (D.fault_count disk.old) (D.fault_count disk.new)
            (D.told disk.old) result }
        ensures damaged { (block : ℕ) → IsErrOf result (StreamFault.Damaged block) →
            block ≡ block_of self.new.feed.run }
        ensures known { (block : ℕ) → IsErrOf result (StreamFault.Damaged block) →
            block ≡ self.new.read_last }
        ensures read { IfSome self.new.feed.run (λ reader. self.new.read_last ≡ reader.block) }
        ensures pages { pages_of self.new ≡ pages_of self.old }
        ensures reach { self.new.feed.reach ≡ self.old.feed.reach }
        ensures holds { IfTold (D.told disk.old) (λ blocks. (rows : List (List ℕ)) →
            HoldsRows blocks self.old rows → HoldsRows blocks self.new rows) }
        ensures stands { IfTold (D.told disk.old) (λ blocks. (size : ℕ) (purse : List SegmentView) →
            StandsWith size self.old purse blocks → StandsWith size self.new purse blocks) }
        ensures same_run { self.new.stored.run ≡ self.old.stored.run }
        ensures quiet { spilled_count self.old.stored.run ≡ 0 → (disk.new ≡ disk.old) ×
            (IsErrOf result StreamFault.Spill → ⊥) }
    {
        // What is true of its pages and its feed, for the prover alone.
        self.stored.limits();
        match self.feed.advance(disk) {
            Ok(more) => Ok(more),
            Err(fault) => {
                self.last_block = self.feed.block();
                Err(fault)
            }
        }
    }
}

impl<D: Spill> RecordStream<D> for Lot {
    ghost left = { λ lot told rows. IsLeft lot told rows };

    ghost IsReady = { λ lot. IsRewound lot };

    ghost shown = { λ lot. lot.feed.shown };

    ghost block_read = { λ lot. block_of lot.feed.run };

    ghost most_left = { λ lot. most_in lot.feed };

    ghost held = { λ lot. segments_of lot };

    fn advance(&mut self, disk: &mut D) -> Result<bool, StreamFault> {
        self.read_next(disk)
    }

    fn head(&self) -> Option<RecordRef<'_>>
        ensures { option_map seen_in result ≡ self.now.feed.shown }
    {
        self.feed.head()
    }

    fn block(&self) -> u64
        ensures { result ≡ block_of self.now.feed.run }
    {
        self.feed.block()
    }
}
