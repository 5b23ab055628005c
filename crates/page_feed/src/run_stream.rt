ghost use Rattle.std.specs.Prelude.{◌≡◌, ℕ, ◌+◌, ◌≤◌, [], List, IfOk, length};
ghost use Rattle.flow_outside.specs.Blocks.{Blocks};
ghost use Rattle.page_feed.specs.Feeds.{HasLeft, IsStarted, block_of, lent, stopped};
ghost use Rattle.page_feed.specs.RunStreams.{HoldsRun};
ghost use Rattle.segment_core.specs.Segments.{count_other_size, segment_sum};

use crate::feed::Feed;
use flow_outside::failure::{Memory, StreamFault};
use flow_outside::spill::Spill;
use paged_view::record_ref::RecordRef;
use paged_view::stream::RecordStream;
use segment_core::{Purse, Segment};
use spool::reader::RunReader;
use spool::run::Run;
use std::alloc::Global;
use std::marker::Model;

/// A stream of the records of a run. It holds nothing but the segments that it was lent to read pages into, so that
/// whoever has the run needs to know nothing of it again after a merge. It may not be let go: `stop` gives the
/// segments back, and `end` ends it.
pub struct RunStream {
    feed: Feed,
    // Both lists stay empty: a run has no page in segments.
    kept: Vec<Segment>,
    open_page: Vec<Segment>,
}

impl Model for RunStream {
    ghost use Rattle.std.specs.Prelude.{vec_len};
    ghost use Rattle.page_feed.specs.Feeds.{FeedView};
    ghost use Rattle.page_feed.specs.RunStreams.{IsRunStream};

    ghost Value = { FeedView };

    ghost view = { λ s. s.feed };

    ghost invariant = { λ s.
        IsRunStream s.feed s.kept.items (vec_len s.kept) s.open_page.items (vec_len s.open_page) };
}

impl RunStream {
    /// A stream that holds nothing, of records that touch at most `reach` pages each. It takes memory for its lists,
    /// and no call after it takes any.
    pub fn open(alloc: Global, reach: u32) -> Result<RunStream, Memory>
        ensures { IfOk result (λ s. s ≡ stopped 0 reach) }
    {
        let feed = Feed::open(alloc, 0, reach)?;
        Ok(RunStream {
            feed,
            kept: Vec::new(alloc),
            open_page: Vec::new(alloc),
        })
    }

    /// Begins at the first record of a run. It takes `reach` segments out of the purse, and calls no device.
    pub fn start(&mut self, run: &Run, purse: &mut Purse)
        requires stopped { self.old ≡ stopped self.old.room self.old.reach }
        requires supply { self.old.reach ≤ length purse.old.pages }
        ensures started { IsStarted self.new }
        ensures left { (blocks : Blocks) (size : ℕ) (rows : List (List ℕ)) →
            count_other_size size purse.old.pages ≡ 0 →
            HoldsRun blocks size self.old.reach run.now rows → HasLeft blocks self.new rows }
        ensures own { (self.new.room ≡ self.old.room) × (self.new.reach ≡ self.old.reach) }
        ensures room { purse.new.room ≡ purse.old.room }
        ensures segments { (h : ℕ → ℕ → ℕ) →
            segment_sum h purse.new.pages + segment_sum h (lent self.new) ≡ segment_sum h purse.old.pages }
    {
        self.feed.start(
            &mut self.kept,
            &mut self.open_page,
            Some(RunReader::start(run)),
            purse,
        );
    }

    /// Gives the segments back, whether it was started or not.
    pub fn stop(&mut self, purse: &mut Purse)
        requires { length purse.old.pages + length (lent self.old) ≤ purse.old.room }
        ensures stopped { self.new ≡ stopped self.old.room self.old.reach }
        ensures room { purse.new.room ≡ purse.old.room }
        ensures segments { (h : ℕ → ℕ → ℕ) →
            segment_sum h purse.new.pages ≡ segment_sum h purse.old.pages + segment_sum h (lent self.old) }
    {
        self.feed.stop(&mut self.kept, &mut self.open_page, purse);
    }

    /// Ends a stream that holds no segment.
    pub fn end(self)
        requires { lent self ≡ [] }
    {
        let RunStream {
            feed,
            kept,
            open_page,
        } = self;
        feed.end();
        kept.destroy_empty();
        open_page.destroy_empty();
    }
}

impl<D: Spill> RecordStream<D> for RunStream {
    ghost use Rattle.page_feed.specs.Feeds.{most_left as most_in};
    ghost use Rattle.page_feed.specs.RunStreams.{IsLeft};

    ghost left = { λ s told rows. IsLeft s told rows };

    ghost IsReady = { λ s. IsStarted s };

    ghost shown = { λ s. s.shown };

    ghost block_read = { λ s. block_of s.run };

    ghost most_left = { λ s. most_in s };

    ghost held = { λ s. lent s };

    fn advance(&mut self, disk: &mut D) -> Result<bool, StreamFault> {
        self.feed.advance(disk)
    }

    fn head(&self) -> Option<RecordRef<'_>> {
        self.feed.head()
    }

    fn block(&self) -> u64 {
        self.feed.block()
    }
}
