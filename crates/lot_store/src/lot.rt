ghost use Rattle.std.specs.Prelude.{◌≡◌, ℕ, ◌+◌, ◌^◌, ◌<◌, ◌≤◌, List, [], ◌∷◌, Ok, IfOk, IsErrOf, OnOk, IsSome, is_ok, length};
ghost use Rattle.flow_outside.specs.Blocks.{BothTold};
ghost use Rattle.flow_outside.specs.Causes.{HasStreamCause};
ghost use Rattle.flow_outside.specs.Told.{IfTold};
ghost use Rattle.lot_store.specs.LotCalls.{AppendsPage, AppendsRow, GetsShorter, HasReadCause, IsAtFirst, IsShowing, IsSupplied, KeepsContents, LeavesDisk, Reads, Writes, spilled_count};
ghost use Rattle.spool.specs.Spilling.{FreesBlocks, HasWriteCause, IsDamagedIn};
ghost use Rattle.lot_store.specs.Storage.{IsReady, Preserves, alone, with_segment};
ghost use Rattle.paged_view.specs.Streams.{Advances, KnowsRows};
ghost use Rattle.lot_store.specs.Lots.{HoldsRows, IsAtRest, IsLeft, IsRewound, empty, held, pages_of};
ghost use Rattle.lot_store.specs.Reads.{BeginsAt};
ghost use Rattle.page_feed.specs.Feeds.{HasLeft, IsStarted, lent, stopped};
ghost use Rattle.segment_core.specs.Segments.{PurseView, segment_sum};

use crate::stored::StoredPages;
use flow_outside::failure::{Memory, StreamFault};
use flow_outside::spill::Spill;
use page_feed::feed::Feed;
use segment_core::{Purse, Segment};
use span_bytes::span::Span;
use std::alloc::Global;
use std::marker::Model;

/// One worker's part of a dataset: pages of framed records, the first ones in segments and the others
/// spilled. From a `rewind` on it is a stream of its records. It may not be let go: `drop_lot` empties it,
/// and `end` ends it.
pub struct Lot {
    pub(crate) stored: StoredPages,
    pub(crate) feed: Feed,
    // the block that was read last, where no run is being read
    pub(crate) last_block: u64,
}

impl Model for Lot {
    ghost use Rattle.lot_store.specs.Lots.{IsLot, LotView};
    ghost use Rattle.page_feed.specs.Feeds.{block_or};

    ghost Value = { LotView };

    ghost view = { λ l. record {
      stored = l.stored;
      feed = l.feed;
      read_last = block_or l.feed.run l.last_block;
    } };

    ghost invariant = { λ l. IsLot l.stored l.feed };
}

impl Lot {
    /// A lot that holds nothing. It keeps at most `room` full pages in segments, and a record of its
    /// touches at most `reach` pages. It takes memory for its lists of pages, and no call after it takes any.
    pub fn open(alloc: Global, room: u32, reach: u32) -> Result<Lot, Memory>
        ensures { IfOk result (λ lot. lot ≡ empty room reach) }
    {
        let feed = Feed::open(alloc, room, reach)?;
        match StoredPages::open(alloc, room) {
            Ok(stored) => Ok(Lot {
                stored,
                feed,
                last_block: 0,
            }),
            Err(Memory) => {
                feed.end();
                Err(Memory)
            }
        }
    }

    /// Stops reading: its pages are to be written again, and the segments for reading go to the purse.
    pub(crate) fn stop(&mut self, purse: &mut Purse)
        requires { length purse.old.pages + length (lent self.old.feed) ≤ purse.old.room }
        ensures stored { self.new.stored ≡ pages_of self.old }
        ensures feed { self.new.feed ≡ stopped self.old.feed.room self.old.feed.reach }
        ensures last { self.new.read_last ≡ self.old.read_last }
        ensures room { purse.new.room ≡ purse.old.room }
        ensures segments { (h : ℕ → ℕ → ℕ) →
            segment_sum h purse.new.pages
            ≡ segment_sum h purse.old.pages + segment_sum h (lent self.old.feed) }
    {
        self.last_block = self.feed.block_or(self.last_block);
        self.stored.take_back(&mut self.feed, purse);
    }

    /// Begins to read, at the first page. It takes `reach` segments out of the purse.
    pub(crate) fn begin(&mut self, purse: &mut Purse)
        requires rest { IsAtRest self.old }
        requires supply { self.old.feed.reach ≤ length purse.old.pages }
        ensures begins { BeginsAt self.old self.new }
        ensures started { IsStarted self.new.feed }
        ensures none { self.new.read_last ≡ 0 }
        ensures room { purse.new.room ≡ purse.old.room }
        ensures segments { (h : ℕ → ℕ → ℕ) →
            segment_sum h purse.new.pages + segment_sum h self.new.feed.blank
            ≡ segment_sum h purse.old.pages }
    {
        self.last_block = 0;
        self.stored.hand_over(&mut self.feed, purse);
    }

    /// The block that was read last since it was last rewound, 0 where none was. It costs nothing.
    pub fn last_block(&self) -> u64
        ensures { result ≡ self.now.read_last }
    {
        self.feed.block_or(self.last_block)
    }

    /// How many of its pages aren't in segments. It costs nothing.
    pub fn spilled(&self) -> u64
        ensures { result ≡ spilled_count self.now.stored.run }
    {
        self.stored.spilled()
    }

    /// Adds a record behind the others: its length and its bytes, which go on in the next page where a page
    /// ends. A page that is full is kept, where there is room for it, no page was spilled yet and the purse
    /// has another segment, and else it is spilled. The lot stops being read before.
    ///
    /// `Spill` only where the disk's count of faults rose in this call; what the lot stands for is then open.
    /// It copies the record's bytes by pieces, and a page costs one write at most. It takes no memory.
    pub fn append<X: Span, D: Spill>(
        &mut self,
        row: &X,
        purse: &mut Purse,
        disk: &mut D,
    ) -> Result<(), StreamFault>
        requires len { length (X.seen row.now) < 2 ^ 32 }
        requires supply { IsSupplied purse.old self.old }
        requires ready { IsReady (alone (D.told disk.old) purse.old self.old) }
        ensures added { OnOk result (BothTold (D.told disk.old) (D.told disk.new)
            (AppendsRow self.old self.new purse.old.pages (X.seen row.now))) }
        ensures preserves { Writes (D.told disk.old) (D.told disk.new) purse.old purse.new self.old self.new }
        ensures cause { HasWriteCause (D.fault_count disk.old) (D.fault_count disk.new) result }
        ensures supply { OnOk result (IsSupplied purse.new self.new) }
        ensures at_rest { IsAtRest self.new }
    {
        self.add_row(row, purse, disk)
    }

    /// Adds a page's used bytes behind the lot's: all that stand behind its header, where the header says more.
    /// A record that the page leaves begun counts once a later page ends it. It copies no byte of them. The
    /// page becomes the open page, and the one that was is kept or spilled; a page of which no byte is used
    /// goes to the purse. The lot stops being read before.
    ///
    /// `Spill` only where the disk's count of faults rose in this call; what the lot stands for is then open.
    pub fn append_page<D: Spill>(
        &mut self,
        page: Segment,
        purse: &mut Purse,
        disk: &mut D,
    ) -> Result<(), StreamFault>
        requires { IsReady (alone (D.told disk.old) (with_segment page purse.old) self.old) }
        ensures added { OnOk result (BothTold (D.told disk.old) (D.told disk.new)
            (AppendsPage page self.old self.new)) }
        ensures preserves { Writes (D.told disk.old) (D.told disk.new)
            (with_segment page purse.old) purse.new self.old self.new }
        ensures cause { HasWriteCause (D.fault_count disk.old) (D.fault_count disk.new) result }
        ensures at_rest { IsAtRest self.new }
    {
        self.add_page(page, purse, disk)
    }

    /// Stops reading, and leaves at most `room` segments in the lot, whatever it answers: the segments for
    /// reading go to the purse, and the open page is spilled exactly where the lot then still holds more,
    /// with one write. It still knows which block was read last.
    ///
    /// `Spill` only where the disk's count of faults rose in this call; what the lot stands for is then open.
    pub fn rest<D: Spill>(&mut self, purse: &mut Purse, disk: &mut D) -> Result<(), StreamFault>
        requires { IsReady (alone (D.told disk.old) purse.old self.old) }
        ensures same { OnOk result (BothTold (D.told disk.old) (D.told disk.new)
            (KeepsContents self.old self.new)) }
        ensures preserves { Writes (D.told disk.old) (D.told disk.new) purse.old purse.new self.old self.new }
        ensures nothing { length (held self.old) ≤ self.old.stored.room + length (lent self.old.feed) →
            Reads (D.told disk.old) (D.told disk.new) purse.old purse.new self.old self.new
            × (D.told disk.new ≡ D.told disk.old) }
        ensures rests { length (held self.new) ≤ self.new.stored.room }
        ensures last { self.new.read_last ≡ self.old.read_last }
        ensures cause { HasWriteCause (D.fault_count disk.old) (D.fault_count disk.new) result }
        ensures at_rest { IsAtRest self.new }
    {
        self.come_to_rest(purse, disk)
    }

    /// Empties the lot: its segments go to the purse, and the blocks of its spilled pages end. It reads each
    /// spilled page once; where there is none, it calls no device and its answer is Ok.
    ///
    /// `Spill` only where the disk's count of faults rose in this call, `Damaged` only over a disk that
    /// doesn't tell. The segments are then in the purse too, and each of the lot's blocks is free or as it was.
    pub fn drop_lot<D: Spill>(&mut self, purse: &mut Purse, disk: &mut D) -> Result<(), StreamFault>
        requires supply { IsSome self.old.stored.run → 0 < length purse.old.pages + length (held self.old) }
        requires ready { IsReady (alone (D.told disk.old) purse.old self.old) }
        ensures empty { self.new ≡ empty self.old.stored.room self.old.feed.reach }
        ensures freed { OnOk result (BothTold (D.told disk.old) (D.told disk.new)
            (FreesBlocks self.old.stored.run)) }
        ensures preserves { Preserves (alone (D.told disk.old) purse.old self.old)
            (alone (D.told disk.new) purse.new self.new) (0 ∷ []) (0 ∷ []) (is_ok result) }
        ensures cause { HasStreamCause (D.fault_count disk.old) (D.fault_count disk.new) (D.told disk.old) result }
        ensures damaged { (block : ℕ) → IsErrOf result (StreamFault.Damaged block) →
            IsDamagedIn self.old.stored.run block }
        ensures quiet { spilled_count self.old.stored.run ≡ 0 → (disk.new ≡ disk.old) × (result ≡ Ok tt) }
    {
        self.give_up(purse, disk)
    }

    /// Begins to read the lot's records, at the first. It takes `reach` segments for reading out of the purse,
    /// and calls no device: its answer is always Ok.
    pub fn rewind<D: Spill>(&mut self, purse: &mut Purse, disk: &mut D) -> Result<(), StreamFault>
        requires supply { self.old.feed.reach ≤ length purse.old.pages + length (lent self.old.feed) }
        requires ready { IsReady (alone (D.told disk.old) purse.old self.old) }
        ensures rows { IfTold (D.told disk.old) (λ blocks. (rows : List (List ℕ)) →
            HoldsRows blocks self.old rows → HasLeft blocks self.new.feed rows) }
        ensures preserves { Reads (D.told disk.old) (D.told disk.new) purse.old purse.new self.old self.new }
        ensures at_first { IsAtFirst self.new }
        ensures always { result ≡ Ok tt }
        ensures disk { disk.new ≡ disk.old }
    {
        self.begin_again(purse, disk)
    }

    /// Moves to the next record, which it then shows: false exactly at the end. It reads each spilled page
    /// once, when the first record that touches it is reached, and changes no block; of a lot with no spilled
    /// page it calls no device.
    ///
    /// `Spill` comes only where the disk's count of faults rose in this call, and `Damaged`, with the block
    /// that was read last, only over a disk that doesn't tell. After either no record is shown.
    pub fn read_next<D: Spill>(&mut self, disk: &mut D) -> Result<bool, StreamFault>
        requires ready { IsRewound self.old }
        requires known { KnowsRows (D.told disk.old) (IsLeft self.old (D.told disk.old)) }
        ensures rows { IfOk result (λ more. (rows : List (List ℕ)) → IsLeft self.old (D.told disk.old) rows →
            Advances rows more self.new.feed.shown (IsLeft self.new (D.told disk.new))) }
        ensures preserves { (purse : PurseView) →
            Reads (D.told disk.old) (D.told disk.new) purse purse self.old self.new }
        ensures shows { IsShowing result self.new }
        ensures shorter { GetsShorter result self.old self.new }
        ensures cause { HasReadCause (D.fault_count disk.old) (D.fault_count disk.new)
            (D.told disk.old) self.new result }
        ensures disk { LeavesDisk disk.old disk.new (D.told disk.old) (D.told disk.new)
            (D.given disk.old) (D.given disk.new) (spilled_count self.old.stored.run) result }
    {
        self.step(disk)
    }

    /// Ends a lot that holds no segment.
    pub fn end(self)
        requires { held self ≡ [] }
    {
        let Lot {
            stored,
            feed,
            last_block: _,
        } = self;
        stored.end();
        feed.end();
    }
}
