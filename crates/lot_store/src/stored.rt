ghost use Rattle.std.specs.Prelude.{◌≡◌, All, ℕ, ◌+◌, ◌^◌, ◌<◌, ◌≤◌, ◌↔◌, [], ◌∷◌, ◌++◌, None, IfOk, OnOk, OnErr, IfSome, IsTrue, length, option_to_list, vec_len, vec_capacity};
ghost use Rattle.lot_store.specs.Keeping.{MovesSegments};
ghost use Rattle.segment_core.specs.Segments.{segment_sum};
ghost use Rattle.flow_outside.specs.Blocks.{BothTold};
ghost use Rattle.flow_outside.specs.Told.{IfTold};
ghost use Rattle.lot_store.specs.LotCalls.{spilled_count};
ghost use Rattle.flow_types.specs.Records.{framed};
ghost use Rattle.lot_store.specs.Stores.{ArePages, HasRoom, held};
ghost use Rattle.spool.specs.Spilling.{HasWriteCause, IsLonger, IsSpilled, IsUnchanged};
ghost use Rattle.lot_store.specs.Reads.{HandsOver};
ghost use Rattle.page_feed.specs.Feeds.{IsStarted, kept_in, open_page_in, lent, stopped};
ghost use Rattle.paged_view.specs.Pages.{all_used_bytes, body, page_at, used_bytes, used, IsSameSegment};

use crate::handing::{give_pages, reader_of, take_pages};
use flow_outside::failure::{Memory, StreamFault};
use flow_outside::spill::Spill;
use page_feed::feed::Feed;
use paged_view::fill::{add_record, has_room};
use segment_core::{Purse, Segment};
use span_bytes::span::Span;
use spool::spill::spill;
use spool::writer::RunWriter;
use std::alloc::Global;
use std::marker::Model;

/// The pages of a lot while it is written: the first ones in segments, the others spilled, and the page
/// under way behind them. It may not be let go: `drop_lot` empties it, and `end` ends it.
pub(crate) struct StoredPages {
    kept: Vec<Segment>,
    room: u32,
    run: Option<RunWriter>,
    open_page: Vec<Segment>,
}

impl Model for StoredPages {
    ghost use Rattle.std.specs.Prelude.{vec_len, vec_capacity};
    ghost use Rattle.lot_store.specs.Stores.{PagesView, IsStore};

    ghost Value = { PagesView };

    ghost view = { λ l. record {
      room = l.room;
      kept = l.kept.items;
      run = l.run;
      open_page = l.open_page.items;
    } };

    ghost invariant = { λ l.
        IsStore l.kept.items l.open_page.items (vec_len l.kept) (vec_capacity l.kept) l.room l.run (vec_len l.open_page) (vec_capacity l.open_page) };
}

impl StoredPages {
    /// No pages, of which at most `room` full ones are kept in segments. It takes 32 bytes for each page that
    /// may be kept, and no call after it takes memory.
    pub(crate) fn open(alloc: Global, room: u32) -> Result<StoredPages, Memory>
        ensures { IfOk result (λ lot. lot ≡ record { room = room; kept = []; run = None; open_page = [] }) }
    {
        let open_page = Vec::with_capacity(alloc, 1)?;
        match Vec::with_capacity(alloc, room as usize) {
            Ok(kept) => Ok(StoredPages {
                kept,
                room,
                run: None,
                open_page,
            }),
            Err(_) => {
                open_page.destroy_empty();
                Err(Memory)
            }
        }
    }

    /// Whether a page may be kept: none was spilled yet, there is room for it, and the purse has another segment.
    pub(crate) fn may_keep(&self, purse: &Purse) -> bool
        ensures none { IsTrue result → self.now.run ≡ None }
        ensures fits { IsTrue result → length self.now.kept < self.now.room }
        ensures supply { IsTrue result → 0 < length purse.now.pages }
    {
        self.run.is_none() && self.kept.len() < self.room as usize && purse.len() > 0
    }

    /// What is always true of the pages. It does nothing.
    pub(crate) fn limits(&self)
        ensures { ArePages self.now }
    {
        let _last = self.open_page.as_slice();
    }

    /// Keeps a page behind the others that are kept.
    pub(crate) fn keep(&mut self, page: Segment)
        requires some { 0 < used page }
        requires within { used page ≤ length (body page) }
        requires fits { length self.old.kept < self.old.room }
        ensures kept { self.new.kept ≡ self.old.kept ++ page ∷ [] }
        ensures run { self.new.run ≡ self.old.run }
        ensures open_page { self.new.open_page ≡ self.old.open_page }
        ensures room { self.new.room ≡ self.old.room }
    {
        self.kept.push_reserved(page);
    }

    /// Spills a page behind those before it.
    pub(crate) fn spill_page<D: Spill>(
        &mut self,
        page: &mut Segment,
        disk: &mut D,
    ) -> Result<(), StreamFault>
        requires some { 0 < used page.old }
        requires within { used page.old ≤ length (body page.old) }
        requires stands { IfTold (D.told disk.old)
            (λ blocks. IsSpilled blocks (length page.old.bytes) self.old.run) }
        ensures cause { HasWriteCause (D.fault_count disk.old) (D.fault_count disk.new) result }
        ensures same { IsSameSegment page.old page.new }
        ensures used_bytes { used_bytes page.new ≡ used_bytes page.old }
        ensures longer { OnOk result (BothTold (D.told disk.old) (D.told disk.new)
            (IsLonger (length page.old.bytes) self.old.run self.new.run page.new.bytes)) }
        ensures refused { OnErr result (BothTold (D.told disk.old) (D.told disk.new)
            (IsUnchanged (length page.old.bytes) self.old.run self.new.run)) }
        ensures kept { self.new.kept ≡ self.old.kept }
        ensures open_page { self.new.open_page ≡ self.old.open_page }
        ensures own { self.new.room ≡ self.old.room }
    {
        spill(&mut self.run, disk, page)
    }

    /// Whether the open page has room for a record of so many bytes.
    pub(crate) fn has_room(&self, len: usize) -> bool
        requires { len < 2 ^ 32 }
        ensures { IsTrue result → HasRoom self.now len }
    {
        self.open_page.len() > 0 && has_room(&self.open_page[0], 4 + len)
    }

    /// Adds a record to the open page, which has room for it.
    pub(crate) fn put_here<X: Span>(&mut self, row: &X)
        requires len { length (X.seen row.now) < 2 ^ 32 }
        requires room { HasRoom self.old (length (X.seen row.now)) }
        ensures added { all_used_bytes self.new.open_page
            ≡ all_used_bytes self.old.open_page ++ framed (X.seen row.now) }
        ensures one { length self.new.open_page ≡ 1 }
        ensures kept { self.new.kept ≡ self.old.kept }
        ensures run { self.new.run ≡ self.old.run }
        ensures own { self.new.room ≡ self.old.room }
        ensures segments { (h : ℕ → ℕ → ℕ) → segment_sum h self.new.open_page
            ≡ segment_sum h self.old.open_page }
    {
        add_record(&mut self.open_page[0], row);
    }

    /// How many pages were spilled.
    pub(crate) fn spilled(&self) -> u64
        ensures { result ≡ spilled_count self.now.run }
    {
        match &self.run {
            Some(writer) => writer.run().pages,
            None => 0,
        }
    }

    /// Whether it holds no more segments than its room.
    pub(crate) fn fits_room(&self) -> bool
        ensures { IsTrue result ↔ (length (held self.now) ≤ self.now.room) }
    {
        self.kept.len() + self.open_page.len() <= self.room as usize
    }

    /// Puts all of its segments into a purse.
    pub(crate) fn give_all(&mut self, purse: &mut Purse)
        requires { length purse.old.pages + length (held self.old) ≤ purse.old.room }
        ensures empty { held self.new ≡ [] }
        ensures run { self.new.run ≡ self.old.run }
        ensures segments { MovesSegments self.old self.new purse.old.pages purse.new.pages }
        ensures room { purse.new.room ≡ purse.old.room }
        ensures own { self.new.room ≡ self.old.room }
    {
        give(&mut self.kept, purse);
        give(&mut self.open_page, purse);
    }

    /// Takes the run of its spilled pages out.
    pub(crate) fn take_run(&mut self) -> Option<RunWriter>
        ensures run { result ≡ self.old.run }
        ensures none { self.new.run ≡ None }
        ensures kept { self.new.kept ≡ self.old.kept }
        ensures open_page { self.new.open_page ≡ self.old.open_page }
        ensures own { self.new.room ≡ self.old.room }
    {
        self.run.take()
    }

    /// Takes the open page out.
    pub(crate) fn take_last(&mut self) -> Option<Segment>
        ensures page { self.old.open_page ≡ option_to_list result }
        ensures open_page { self.new.open_page ≡ [] }
        ensures fits { length self.new.kept ≤ self.new.room }
        ensures some { IfSome result (λ page. 0 < used page) }
        ensures within { IfSome result (λ page. used page ≤ length (body page)) }
        ensures kept { self.new.kept ≡ self.old.kept }
        ensures run { self.new.run ≡ self.old.run }
        ensures own { self.new.room ≡ self.old.room }
    {
        self.open_page.pop()
    }

    /// Makes a page the one under way.
    pub(crate) fn put_last(&mut self, page: Segment)
        requires none { self.old.open_page ≡ [] }
        requires some { 0 < used page }
        requires within { used page ≤ length (body page) }
        ensures open_page { self.new.open_page ≡ page ∷ [] }
        ensures kept { self.new.kept ≡ self.old.kept }
        ensures run { self.new.run ≡ self.old.run }
        ensures own { self.new.room ≡ self.old.room }
    {
        self.open_page.push_reserved(page);
    }

    /// Takes the pages back that a feed has. The segments that it was lent go to the purse.
    pub(crate) fn take_back(&mut self, feed: &mut Feed, purse: &mut Purse)
        requires whole { 0 < length (kept_in feed.old) + length (open_page_in feed.old) →
            length self.old.kept + length self.old.open_page ≡ 0 }
        requires fits { length (kept_in feed.old) ≤ self.old.room }
        requires filled { All (λ page. 0 < length (used_bytes page)) (kept_in feed.old) }
        requires one { length (open_page_in feed.old) ≤ 1 }
        requires some { 0 < length (open_page_in feed.old) → 0 < used (page_at (open_page_in feed.old) 0) }
        requires within { used (page_at (open_page_in feed.old) 0)
            ≤ length (body (page_at (open_page_in feed.old) 0)) }
        requires room { length purse.old.pages + length (lent feed.old) ≤ purse.old.room }
        ensures kept { self.new.kept ≡ self.old.kept ++ kept_in feed.old }
        ensures open_page { self.new.open_page ≡ self.old.open_page ++ open_page_in feed.old }
        ensures run { self.new.run ≡ self.old.run }
        ensures own { self.new.room ≡ self.old.room }
        ensures feed { feed.new ≡ stopped feed.old.room feed.old.reach }
        ensures room { purse.new.room ≡ purse.old.room }
        ensures segments { (h : ℕ → ℕ → ℕ) → segment_sum h purse.new.pages
            ≡ segment_sum h purse.old.pages + segment_sum h (lent feed.old) }
    {
        take_pages(&mut self.kept, &mut self.open_page, feed, purse);
    }

    /// Hands all pages over to a feed, which takes segments from the purse to read spilled pages into.
    pub(crate) fn hand_over(&mut self, feed: &mut Feed, purse: &mut Purse)
        requires rest { feed.old ≡ stopped feed.old.room feed.old.reach }
        requires seat { feed.old.room ≡ self.old.room }
        requires supply { feed.old.reach ≤ length purse.old.pages }
        ensures over { HandsOver self.old self.new feed.old feed.new }
        ensures started { IsStarted feed.new }
        ensures fits { length self.old.kept ≤ self.old.room }
        ensures filled { All (λ page. 0 < length (used_bytes page)) self.old.kept }
        ensures one { length self.old.open_page ≤ 1 }
        ensures some { 0 < length self.old.open_page → 0 < used (page_at self.old.open_page 0) }
        ensures within { used (page_at self.old.open_page 0) ≤ length (body (page_at self.old.open_page 0)) }
        ensures room { purse.new.room ≡ purse.old.room }
        ensures segments { (h : ℕ → ℕ → ℕ) →
            segment_sum h purse.new.pages + segment_sum h feed.new.blank
            ≡ segment_sum h purse.old.pages }
    {
        let reader = reader_of(&self.run);
        give_pages(&mut self.kept, &mut self.open_page, reader, feed, purse);
    }

    /// Ends them where they hold no segment.
    pub(crate) fn end(self)
        requires { held self ≡ [] }
    {
        let StoredPages {
            kept,
            room: _,
            run: _,
            open_page,
        } = self;
        kept.destroy_empty();
        open_page.destroy_empty();
    }
}

// Puts segments into a purse, all of them.
fn give(pages: &mut Vec<Segment>, purse: &mut Purse)
    requires { length purse.old.pages + length pages.old.items ≤ purse.old.room }
    ensures none { pages.new.items ≡ [] }
    ensures len { vec_len pages.new ≡ 0 }
    ensures capacity { vec_capacity pages.new ≡ vec_capacity pages.old }
    ensures room { purse.new.room ≡ purse.old.room }
    ensures segments { (h : ℕ → ℕ → ℕ) → segment_sum h purse.new.pages
        ≡ segment_sum h purse.old.pages + segment_sum h pages.old.items }
    ensures count { length purse.new.pages ≡ length purse.old.pages + length pages.old.items }
{
    'pages: while let Some(page) = pages.pop() {
        purse.put(page);
    }
}
