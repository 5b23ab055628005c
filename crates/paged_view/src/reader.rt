ghost use Rattle.std.specs.Prelude.{◌≡◌, ℕ, ◌+◌, ◌-◌, ◌^◌, ◌<◌, ◌≤◌, ◌↔◌, [], ◌∷◌, ◌++◌, length, take, drop, vec_len, vec_capacity, IsTrue, IsSome, IsOk, IfOk, OnOk, OnErr, OnSome, IfSome, IfNone, MatchOption, is_some, option_to_list};
ghost use Rattle.std.specs.Borrow.{sem};
ghost use Rattle.segment_core.specs.Segments.{segment_sum};
ghost use Rattle.paged_view.specs.Pages.{used_bytes, all_used_bytes, page_at};
ghost use Rattle.paged_view.specs.Reading.{size_of, HasRecord, first_record, moved, has_spent, unread, IsHere};
ghost use Rattle.paged_view.specs.Seen.{seen_in};

use crate::need_page::NeedPage;
use crate::page::used_bytes;
use crate::record_ref::RecordRef;
use crate::share::Share;
use segment_core::{Purse, Segment};
use span_bytes::span::Span;
use std::marker::Model;

/// Reads framed records from the used bytes of its pages, the oldest page first. It may not be let go:
/// it ends in a purse.
pub struct PageReader {
    pages: Vec<Segment>,
    room: u32,
    page: usize,
    off: usize,
    pending: usize,
}

impl Model for PageReader {
    ghost use Rattle.std.specs.Prelude.{◌+◌, take, vec_len, vec_capacity};
    ghost use Rattle.paged_view.specs.Reading.{Reading, IsReader, unread};

    ghost Value = { Reading };

    ghost view = { λ r. record {
      room = r.room;
      pages = r.pages.items;
      head = take r.pending (unread r.pages.items r.page r.off);
      text = unread r.pages.items r.page (r.off + r.pending);
    } };

    ghost invariant = { λ r.
        IsReader r.pages.items (vec_len r.pages) (vec_capacity r.pages) r.room r.page r.off r.pending };
}

// A byte of a page.
#[derive(Clone, Copy)]
struct Place {
    page: usize,
    off: usize,
}

impl PageReader {
    ghost use Rattle.paged_view.specs.ReadingLends.{MovesIfOk};

    /// A reader with the room of an empty purse.
    pub fn new(room: Purse) -> PageReader
        requires { room.pages ≡ [] }
        ensures { result ≡ record { room = room.room; pages = []; head = []; text = [] } }
    {
        let (pages, room) = room.into_items();
        PageReader {
            pages,
            room,
            page: 0,
            off: 0,
            pending: 0,
        }
    }

    /// Adds a page behind the others. Its used bytes are read behind theirs.
    pub fn give(&mut self, page: Segment)
        requires { length self.old.pages < self.old.room }
        ensures pages { self.new.pages ≡ self.old.pages ++ page ∷ [] }
        ensures head { self.new.head ≡ self.old.head }
        ensures text { self.new.text ≡ self.old.text ++ used_bytes page }
        ensures room { self.new.room ≡ self.old.room }
        ensures segments { (h : ℕ → ℕ → ℕ) →
            segment_sum h self.new.pages ≡ segment_sum h self.old.pages + segment_sum h (page ∷ []) }
    {
        self.pages.push_reserved(page);
    }

    /// Reads the next record, and moves past it.
    ///
    /// `NeedPage` exactly where the unread bytes don't begin with a whole framed record: then nothing
    /// changes. A record that lies in one page is one piece. It copies no byte of the record and looks at
    /// no page but those that the record touches.
    pub fn next(&mut self) -> Result<RecordRef<'_>, NeedPage>
        ensures* past { sem 𝓛 (MovesIfOk self.entry result) }
        ensures need { IsOk result ↔ HasRecord self.old.text }
        ensures row { IfOk result (λ r. seen_in r ≡ first_record self.old.text) }
    {
        self.advance()?;
        Ok(self.head())
    }

    /// Moves past the next record, which is then the head.
    ///
    /// `NeedPage` exactly where the unread bytes don't begin with a whole framed record: then nothing
    /// changes. It reads the record's length alone, and where the record lies in one page, one header.
    pub fn advance(&mut self) -> Result<(), NeedPage>
        ensures need { IsOk result ↔ HasRecord self.old.text }
        ensures ok { OnOk result (self.new ≡ moved self.old) }
        ensures err { OnErr result (self.new ≡ self.old) }
    {
        if let Some(len) = len_here(&self.pages, self.page, self.off + self.pending) {
            self.off = self.off + self.pending + 4;
            self.pending = len;
            return Ok(());
        }
        let start = place_at(&self.pages, self.page, self.off + self.pending);
        let Some(len) = whole_len(&self.pages, start) else {
            return Err(NeedPage);
        };
        let place = place_at(&self.pages, start.page, start.off + 4);
        self.page = place.page;
        self.off = place.off;
        self.pending = len;
        Ok(())
    }

    /// The record that `next` or `advance` moved past last, until `next`, `advance`, `spent` or `withdraw`
    /// answers the next time, and else an empty one.
    pub fn head(&self) -> RecordRef<'_>
        ensures { seen_in result ≡ self.now.head }
    {
        record_at(
            &self.pages,
            Place {
                page: self.page,
                off: self.off,
            },
            self.pending,
        )
    }

    /// Takes the oldest page out of which all bytes were read, those of the record that was moved past
    /// last too: `None` exactly where there is none. It moves the pages behind it.
    pub fn spent(&mut self) -> Option<Segment>
        ensures some { is_some result ≡ has_spent self.old.text self.old.pages }
        ensures none { IfNone result (self.new ≡ self.old) }
        ensures pages { self.old.pages ≡ option_to_list result ++ self.new.pages }
        ensures fits { length self.old.pages ≤ self.old.room }
        ensures text { self.new.text ≡ self.old.text }
        ensures head { OnSome result (self.new.head ≡ []) }
        ensures room { self.new.room ≡ self.old.room }
        ensures segments { (h : ℕ → ℕ → ℕ) →
            segment_sum h self.new.pages + segment_sum h (option_to_list result)
            ≡ segment_sum h self.old.pages }
    {
        let place = place_at(&self.pages, self.page, self.off + self.pending);
        if place.page == 0 {
            return None;
        }
        self.page = place.page - 1;
        self.off = place.off;
        self.pending = 0;
        Some(self.pages.remove(0))
    }

    /// Takes the oldest page, whether it was read or not: `None` exactly where there is none. Reading
    /// begins anew, with the first byte of the pages that are left. It moves these.
    pub fn withdraw(&mut self) -> Option<Segment>
        ensures some { IsSome result ↔ (0 < length self.old.pages) }
        ensures pages { self.old.pages ≡ option_to_list result ++ self.new.pages }
        ensures text { self.new.text ≡ all_used_bytes self.new.pages }
        ensures head { self.new.head ≡ [] }
        ensures room { self.new.room ≡ self.old.room }
        ensures segments { (h : ℕ → ℕ → ℕ) →
            segment_sum h self.new.pages + segment_sum h (option_to_list result)
            ≡ segment_sum h self.old.pages }
    {
        self.page = 0;
        self.off = 0;
        self.pending = 0;
        if self.pages.is_empty() {
            return None;
        }
        Some(self.pages.remove(0))
    }

    /// How many pages it holds.
    pub fn len(&self) -> usize
        ensures { result ≡ length self.now.pages }
    {
        self.pages.len()
    }

    /// Whether all bytes of its pages were read.
    pub fn is_read_out(&self) -> bool
        ensures { IsTrue result ↔ (self.now.text ≡ []) }
    {
        let end = place_at(&self.pages, self.page, self.off + self.pending);
        end.page == self.pages.len()
    }

    /// Takes the reader apart: all of its segments, in a purse of its room.
    pub fn end(self) -> Purse
        ensures { result ≡ record { room = self.room; pages = self.pages } }
    {
        let PageReader {
            pages,
            room,
            page: _,
            off: _,
            pending: _,
        } = self;
        Purse::of_items(pages, room)
    }
}

// The place of byte `at` of the used bytes of the pages from `page` on: a byte of a page, or behind the
// last page.
fn place_at(pages: &Vec<Segment>, page: usize, at: usize) -> Place
    requires among { page ≤ vec_len pages.now }
    requires within { at ≤ length (all_used_bytes (drop page pages.now.items)) }
    ensures same { unread pages.now.items result.page result.off ≡ unread pages.now.items page at }
    ensures among { result.page ≤ vec_len pages.now }
    ensures within { result.off ≤ length (used_bytes (page_at pages.now.items result.page)) }
    ensures byte { result.page < vec_len pages.now
        → result.off < length (used_bytes (page_at pages.now.items result.page)) }
    ensures small { result.off ≤ 32752 }
    ensures later { page ≤ result.page }
{
    let mut page = page;
    let mut off = at;
    while page < pages.len() {
        let used = used_bytes(&pages[page]).len();
        if off < used {
            return Place { page, off };
        }
        off -= used;
        page += 1;
    }
    Place { page, off }
}

// The length of the record that begins at byte `at` of the used bytes of a page, where it lies in that
// page with its length. It looks at one header. None says nothing.
fn len_here(pages: &Vec<Segment>, page: usize, at: usize) -> Option<usize>
    ensures here { IfSome result (IsHere pages.now.items page at) }
    ensures small { IfSome result (λ len. at + 4 + len ≤ 32752) }
{
    if page >= pages.len() {
        return None;
    }
    let used = used_bytes(&pages[page]);
    if used.len() < at {
        return None;
    }
    let rest = &used[at..];
    if rest.len() < 4 {
        return None;
    }
    let len = len_of(rest);
    if rest.len() - 4 < len {
        return None;
    }
    Some(len)
}

// The length that the first four bytes name.
fn len_of(text: &[u8]) -> usize
    requires { 4 ≤ length text.now }
    ensures value { result ≡ size_of text.now }
    ensures small { result < 2 ^ 32 }
{
    u32::from_be_bytes([text[0], text[1], text[2], text[3]]) as usize
}

// The length of the record that begins at a place, where it is whole.
fn whole_len(pages: &Vec<Segment>, place: Place) -> Option<usize>
    requires among { place.page ≤ vec_len pages.now }
    requires within { place.off ≤ length (used_bytes (page_at pages.now.items place.page)) }
    requires small { place.off ≤ 32752 }
    ensures whole { MatchOption result
        (HasRecord (unread pages.now.items place.page place.off) → ⊥)
        (λ len. HasRecord (unread pages.now.items place.page place.off)
        × (len ≡ size_of (unread pages.now.items place.page place.off))) }
    ensures small { IfSome result (λ len. len < 2 ^ 32) }
{
    if !reaches(pages, place, 4) {
        return None;
    }
    let frame = record_at(pages, place, 4);
    let len = u32::from_be_bytes([frame.at(0), frame.at(1), frame.at(2), frame.at(3)]) as usize;
    if !reaches(pages, place, 4 + len) {
        return None;
    }
    Some(len)
}

// Whether so many bytes stand from a place on.
fn reaches(pages: &Vec<Segment>, place: Place, need: usize) -> bool
    requires among { place.page ≤ vec_len pages.now }
    requires within { place.off ≤ length (used_bytes (page_at pages.now.items place.page)) }
    requires small { place.off + need < 2 ^ 64 }
    ensures { IsTrue result ↔ (need ≤ length (unread pages.now.items place.page place.off)) }
{
    let mut left = place.off + need;
    for page in &pages[place.page..] {
        let used = used_bytes(page).len();
        if left <= used {
            return true;
        }
        left -= used;
    }
    left == 0
}

// The record of `len` bytes at a place.
fn record_at(pages: &Vec<Segment>, place: Place, len: usize) -> RecordRef<'_>
    requires among { place.page ≤ vec_len pages.now }
    requires within { place.off ≤ length (used_bytes (page_at pages.now.items place.page)) }
    requires whole { place.off + len ≤ length (all_used_bytes (drop place.page pages.now.items)) }
    ensures { seen_in result ≡ take len (unread pages.now.items place.page place.off) }
{
    let rest = &pages[place.page..];
    match rest.split_first() {
        Some((first, behind)) => RecordRef::of(
            &used_bytes(first)[place.off..],
            behind,
            &behind[..0],
            Share::Used,
            len,
        ),
        None => RecordRef::of(&[], rest, rest, Share::Used, len),
    }
}
