ghost use Rattle.std.specs.Prelude.{◌≡◌, ℕ, ◌+◌, ◌-◌, ◌^◌, ◌<◌, ◌≤◌, ◌↔◌, min, [], ◌∷◌, ◌++◌, length, take, drop, vec_len, vec_capacity, slice_set, IsTrue, IsSome, IfSome, OnSome, IfNone, IsErr, OnOk, OnErr, is_some, option_to_list};
ghost use Rattle.flow_types.specs.Records.{framed};
ghost use Rattle.segment_core.specs.Segments.{segment_sum};
ghost use Rattle.paged_view.specs.Pages.{body, bodies, used, all_used_bytes, page_at, HasUsed};
ghost use Rattle.paged_view.specs.Writing.{free, has_full, text_in, written};

use crate::need_page::NeedPage;
use crate::page::{HEADER_SIZE, body_of, set_used, write_at};
use segment_core::{Purse, Segment};
use span_bytes::span::Span;
use std::marker::Model;

/// Writes framed records into the bodies of its pages, the oldest page first, and gives the pages out
/// as they fill. It may not be let go: it ends in a purse.
pub struct PageWriter {
    pages: Vec<Segment>,
    room: u32,
    full: usize,
    fill: usize,
}

impl Model for PageWriter {
    ghost use Rattle.std.specs.Prelude.{vec_len, vec_capacity};
    ghost use Rattle.paged_view.specs.Writing.{Writing, text_in, IsWriter};

    ghost Value = { Writing };

    ghost view = { λ w. record {
      room = w.room;
      pages = w.pages.items;
      text = text_in w.pages.items w.full w.fill;
    } };

    ghost invariant = { λ w.
        IsWriter w.pages.items (vec_len w.pages) (vec_capacity w.pages) w.room w.full w.fill };
}

impl PageWriter {
    /// A writer over the purse's segments, with its room. What they hold is written over.
    pub fn new(pages: Purse) -> PageWriter
        ensures { result ≡ record { room = pages.room; pages = pages.pages; text = [] } }
    {
        let (pages, room) = pages.into_items();
        PageWriter {
            pages,
            room,
            full: 0,
            fill: 0,
        }
    }

    /// Adds a page behind the others. What it holds is written over.
    pub fn give(&mut self, page: Segment)
        requires { length self.old.pages < self.old.room }
        ensures pages { self.new.pages ≡ self.old.pages ++ page ∷ [] }
        ensures text { self.new.text ≡ self.old.text }
        ensures room { self.new.room ≡ self.old.room }
        ensures segments { (h : ℕ → ℕ → ℕ) →
            segment_sum h self.new.pages ≡ segment_sum h self.old.pages + segment_sum h (page ∷ []) }
    {
        self.pages.push_reserved(page);
    }

    /// Appends a record behind its length.
    ///
    /// `NeedPage` exactly where the pages have room for fewer bytes than 4 and the record's: then
    /// nothing changes. It copies the record's bytes by pieces, and looks at no page but those that
    /// they go to. It takes no memory.
    pub fn append<X: Span>(&mut self, row: &X) -> Result<(), NeedPage>
        requires { length (X.seen row.now) < 2 ^ 32 }
        ensures need { IsErr result ↔ (free self.old < 4 + length (X.seen row.now)) }
        ensures ok { OnOk result (self.new.text ≡ self.old.text ++ framed (X.seen row.now)) }
        ensures err { OnErr result (self.new ≡ self.old) }
        ensures fits { length self.old.text ≤ length (bodies self.old.pages) }
        ensures room { self.new.room ≡ self.old.room }
        ensures size { length (bodies self.new.pages) ≡ length (bodies self.old.pages) }
        ensures segments { (h : ℕ → ℕ → ℕ) → segment_sum h self.new.pages ≡ segment_sum h self.old.pages }
    {
        let len = row.len();
        if self.lacks(4 + len) {
            return Err(NeedPage);
        }
        self.put(&(len as u32).to_be_bytes());
        self.put_span(row);
        Ok(())
    }

    // Whether its pages have room for fewer bytes than these.
    fn lacks(&self, need: usize) -> bool
        requires { need < 2 ^ 33 }
        ensures short { IsTrue result ↔ (free self.now < need) }
        ensures fits { length self.now.text ≤ length (bodies self.now.pages) }
    {
        are_short(&self.pages, self.full, self.fill, need)
    }

    // Writes all bytes of a record behind the text.
    fn put_span<X: Span>(&mut self, row: &X)
        requires { length (X.seen row.now) ≤ free self.old }
        ensures text { self.new.text ≡ self.old.text ++ X.seen row.now }
        ensures room { self.new.room ≡ self.old.room }
        ensures size { length (bodies self.new.pages) ≡ length (bodies self.old.pages) }
        ensures segments { (h : ℕ → ℕ → ℕ) → segment_sum h self.new.pages ≡ segment_sum h self.old.pages }
    {
        let len = row.len();
        let mut at = 0;
        'pieces: while at < len {
            let piece = row.piece(at);
            self.put(piece);
            at += piece.len();
        }
    }

    // Writes these bytes behind the text.
    fn put(&mut self, bytes: &[u8])
        requires { length bytes.now ≤ free self.old }
        ensures text { self.new.text ≡ self.old.text ++ bytes.now }
        ensures room { self.new.room ≡ self.old.room }
        ensures size { length (bodies self.new.pages) ≡ length (bodies self.old.pages) }
        ensures segments { (h : ℕ → ℕ → ℕ) → segment_sum h self.new.pages ≡ segment_sum h self.old.pages }
    {
        let mut at = 0;
        'pieces: while at < bytes.len() {
            at += self.put_piece(&bytes[at..]);
        }
    }

    // Writes as many of these bytes behind the text as the page under way has room for. How many.
    fn put_piece(&mut self, bytes: &[u8]) -> usize
        requires some { 0 < length bytes.now }
        requires space { length bytes.now ≤ free self.old }
        ensures some { 0 < result }
        ensures within { result ≤ length bytes.now }
        ensures text { self.new.text ≡ self.old.text ++ take result bytes.now }
        ensures room { self.new.room ≡ self.old.room }
        ensures size { length (bodies self.new.pages) ≡ length (bodies self.old.pages) }
        ensures segments { (h : ℕ → ℕ → ℕ) → segment_sum h self.new.pages ≡ segment_sum h self.old.pages }
    {
        let space = body_of(&self.pages[self.full]).len();
        let count = write_piece(&mut self.pages, self.full, self.fill, bytes);
        self.fill += count;
        if self.fill == space {
            self.full += 1;
            self.fill = 0;
        }
        count
    }

    /// Takes the oldest page out where it is full: `None` exactly where the text doesn't reach that
    /// page's end, or there is no page. Its header then says that all of its body is used, and the text
    /// goes on behind what it took. It moves the pages behind it and no bytes.
    pub fn full(&mut self) -> Option<Segment>
        ensures some { is_some result ≡ has_full self.old.text self.old.pages }
        ensures none { IfNone result (self.new ≡ self.old) }
        ensures text { self.old.text ≡ all_used_bytes (option_to_list result) ++ self.new.text }
        ensures used { IfSome result (λ p. HasUsed (length (body p)) p) }
        ensures rest { OnSome result (self.new.pages ≡ drop 1 self.old.pages) }
        ensures fits { length self.old.pages ≤ self.old.room }
        ensures room { self.new.room ≡ self.old.room }
        ensures segments { (h : ℕ → ℕ → ℕ) →
            segment_sum h self.new.pages + segment_sum h (option_to_list result)
            ≡ segment_sum h self.old.pages }
    {
        let space = body_of(self.pages.first()?).len();
        if self.full == 0 {
            return None;
        }
        self.full -= 1;
        Some(take_first(&mut self.pages, space))
    }

    /// Takes the oldest page out that holds bytes: `None` exactly where the text is empty. Its header
    /// then says how many of its bytes are used: all of its body, or all of the text where that is less.
    /// It moves the pages behind it and no bytes.
    pub fn last(&mut self) -> Option<Segment>
        ensures some { IsSome result ↔ (0 < length self.old.text) }
        ensures none { IfNone result (self.new ≡ self.old) }
        ensures text { self.old.text ≡ all_used_bytes (option_to_list result) ++ self.new.text }
        ensures used { IfSome result (λ p. HasUsed (min (length (body p)) (length self.old.text)) p) }
        ensures rest { OnSome result (self.new.pages ≡ drop 1 self.old.pages) }
        ensures fits { length self.old.pages ≤ self.old.room }
        ensures room { self.new.room ≡ self.old.room }
        ensures segments { (h : ℕ → ℕ → ℕ) →
            segment_sum h self.new.pages + segment_sum h (option_to_list result)
            ≡ segment_sum h self.old.pages }
    {
        let space = body_of(self.pages.first()?).len();
        if self.full > 0 {
            self.full -= 1;
            return Some(take_first(&mut self.pages, space));
        }
        if self.fill == 0 {
            return None;
        }
        let count = self.fill;
        self.fill = 0;
        Some(take_first(&mut self.pages, count))
    }

    /// Takes the writer apart: all of its segments, in a purse of its room.
    pub fn end(self) -> Purse
        ensures { result ≡ record { room = self.room; pages = self.pages } }
    {
        let PageWriter {
            pages,
            room,
            full: _,
            fill: _,
        } = self;
        Purse::of_items(pages, room)
    }
}

// Whether the bodies of pages have room for fewer than `need` bytes, where `full` of them are full and
// the next one has `fill` bytes.
fn are_short(pages: &Vec<Segment>, full: usize, fill: usize, need: usize) -> bool
    requires among { full ≤ vec_len pages.now }
    requires small { need + fill < 2 ^ 64 }
    ensures { IsTrue result ↔ (length (bodies (drop full pages.now.items)) < need + fill) }
{
    let mut left = need + fill;
    for page in &pages[full..] {
        let space = body_of(page).len();
        if left <= space {
            return false;
        }
        left -= space;
    }
    left > 0
}

// Writes as many bytes as fit into the body of page `full`, from place `fill` on. How many.
fn write_piece(pages: &mut Vec<Segment>, full: usize, fill: usize, bytes: &[u8]) -> usize
    requires among { full < vec_len pages.old }
    requires within { fill ≤ length (body (page_at pages.old.items full)) }
    ensures count { result
        ≡ min (length bytes.now) (length (body (page_at pages.old.items full)) - fill) }
    ensures pages { pages.new.items ≡ slice_set pages.old.items full
        (written (page_at pages.old.items full) (HEADER_SIZE + fill) (take result bytes.now)) }
    ensures len { vec_len pages.new ≡ vec_len pages.old }
    ensures capacity { vec_capacity pages.new ≡ vec_capacity pages.old }
{
    let page = &mut pages[full];
    let count = bytes.len().min(body_of(page).len() - fill);
    write_at(page, HEADER_SIZE + fill, &bytes[..count]);
    count
}

// Takes the first page out, with a header that says that `count` of its bytes are used.
fn take_first(pages: &mut Vec<Segment>, count: usize) -> Segment
    requires some { 0 < vec_len pages.old }
    requires small { count < 2 ^ 32 }
    ensures rest { pages.new.items ≡ drop 1 pages.old.items }
    ensures len { vec_len pages.new + 1 ≡ vec_len pages.old }
    ensures capacity { vec_capacity pages.new ≡ vec_capacity pages.old }
    ensures body { body result ≡ body (page_at pages.old.items 0) }
    ensures used { used result ≡ count }
    ensures segments { (h : ℕ → ℕ → ℕ) →
        segment_sum h pages.new.items + segment_sum h (result ∷ []) ≡ segment_sum h pages.old.items }
{
    let mut page = pages.remove(0);
    set_used(&mut page, count);
    page
}
