ghost use Rattle.std.specs.Prelude.{◌≡◌, ℕ, ◌+◌, ◌≤◌, [], ◌++◌, length, vec_len, vec_capacity};
ghost use Rattle.lot_store.specs.Reads.{BeginsRun};
ghost use Rattle.page_feed.specs.Feeds.{IsStarted, kept_in, open_page_in, lent, stopped};
ghost use Rattle.segment_core.specs.Segments.{segment_sum};

use page_feed::feed::Feed;
use segment_core::{Purse, Segment};
use spool::reader::RunReader;
use spool::writer::RunWriter;

/// Takes the pages of a feed back, behind those of two lists. The segments that it was lent go to the purse.
pub(crate) fn take_pages(
    kept: &mut Vec<Segment>,
    open_page: &mut Vec<Segment>,
    feed: &mut Feed,
    purse: &mut Purse,
)
    requires kept_room { vec_len kept.old + length (kept_in feed.old) ≤ vec_capacity kept.old }
    requires last_room { vec_len open_page.old + length (open_page_in feed.old) ≤ vec_capacity open_page.old }
    requires room { length purse.old.pages + length (lent feed.old) ≤ purse.old.room }
    ensures kept { kept.new.items ≡ kept.old.items ++ kept_in feed.old }
    ensures kept_len { vec_len kept.new ≡ vec_len kept.old + length (kept_in feed.old) }
    ensures kept_capacity { vec_capacity kept.new ≡ vec_capacity kept.old }
    ensures open_page { open_page.new.items ≡ open_page.old.items ++ open_page_in feed.old }
    ensures last_len { vec_len open_page.new ≡ vec_len open_page.old + length (open_page_in feed.old) }
    ensures last_capacity { vec_capacity open_page.new ≡ vec_capacity open_page.old }
    ensures feed { feed.new ≡ stopped feed.old.room feed.old.reach }
    ensures room { purse.new.room ≡ purse.old.room }
    ensures segments { (h : ℕ → ℕ → ℕ) →
        segment_sum h purse.new.pages ≡ segment_sum h purse.old.pages + segment_sum h (lent feed.old) }
{
    let _kept = kept.as_slice();
    let _last = open_page.as_slice();
    feed.stop(kept, open_page, purse);
    let _all = kept.as_slice();
    let _one = open_page.as_slice();
}

/// Hands the pages of two lists and those of a run over to a feed, which takes segments from the purse to
/// read the run's pages into.
pub(crate) fn give_pages(
    kept: &mut Vec<Segment>,
    open_page: &mut Vec<Segment>,
    run: Option<RunReader>,
    feed: &mut Feed,
    purse: &mut Purse,
)
    requires rest { feed.old ≡ stopped feed.old.room feed.old.reach }
    requires fits { vec_len kept.old ≤ feed.old.room }
    requires one { vec_len open_page.old ≤ 1 }
    requires supply { feed.old.reach ≤ length purse.old.pages }
    ensures begins { feed.new ≡ record (stopped feed.old.room feed.old.reach) {
      ahead = kept.old.items;
      run = run;
      open_page = open_page.old.items;
      blank = feed.new.blank;
    } }
    ensures started { IsStarted feed.new }
    ensures kept { kept.new.items ≡ [] }
    ensures kept_len { vec_len kept.new ≡ 0 }
    ensures kept_capacity { vec_capacity kept.new ≡ vec_capacity kept.old }
    ensures open_page { open_page.new.items ≡ [] }
    ensures last_len { vec_len open_page.new ≡ 0 }
    ensures last_capacity { vec_capacity open_page.new ≡ vec_capacity open_page.old }
    ensures room { purse.new.room ≡ purse.old.room }
    ensures segments { (h : ℕ → ℕ → ℕ) →
        segment_sum h purse.new.pages + segment_sum h feed.new.blank ≡ segment_sum h purse.old.pages }
{
    let _kept = kept.as_slice();
    let _last = open_page.as_slice();
    feed.start(kept, open_page, run, purse);
    let _none = kept.as_slice();
    let _nothing = open_page.as_slice();
}

/// A reader at the first page of what a writer has pushed, where there is one.
pub(crate) fn reader_of(run: &Option<RunWriter>) -> Option<RunReader>
    ensures { BeginsRun run.now result }
{
    match run {
        Some(writer) => Some(RunReader::start(&writer.run())),
        None => None,
    }
}
