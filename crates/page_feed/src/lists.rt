ghost use Rattle.std.specs.Prelude.{◌≡◌, ℕ, ◌+◌, ◌≤◌, [], ◌++◌, length, reverse, take, drop, vec_len, vec_capacity, IfOk};
ghost use Rattle.segment_core.specs.Segments.{segment_sum};

use flow_outside::failure::Memory;
use paged_view::reader::PageReader;
use segment_core::{Purse, Segment};
use std::alloc::Global;

/// Two empty lists with space reserved for so many segments.
pub(crate) fn reserve(
    alloc: Global,
    first: u32,
    second: u32,
) -> Result<(Vec<Segment>, Vec<Segment>), Memory>
    ensures first { IfOk result
        (λ lists. (lists.0.items ≡ []) × (vec_len lists.0 ≡ 0) × (first ≤ vec_capacity lists.0)) }
    ensures second { IfOk result
        (λ lists. (lists.1.items ≡ []) × (vec_len lists.1 ≡ 0) × (second ≤ vec_capacity lists.1)) }
{
    let one = Vec::with_capacity(alloc, first as usize)?;
    match Vec::with_capacity(alloc, second as usize) {
        Ok(other) => Ok((one, other)),
        Err(_) => {
            one.destroy_empty();
            Err(Memory)
        }
    }
}

/// A reader that holds no page, with space reserved for `room` of them.
pub(crate) fn reserve_reader(alloc: Global, room: u32) -> Result<PageReader, Memory>
    ensures { IfOk result (λ reader. reader ≡ record { room = room; pages = []; head = []; text = [] }) }
{
    match Purse::open(alloc, room) {
        Ok(purse) => Ok(PageReader::new(purse)),
        Err(_) => Err(Memory),
    }
}

/// Ends a reader that holds no page.
pub(crate) fn end_reader(reader: PageReader)
    requires { reader.pages ≡ [] }
{
    let (pages, _room) = reader.end().into_items();
    pages.destroy_empty();
}

/// Moves all segments of one list behind those of another, the last one first.
pub(crate) fn turn_over(from: &mut Vec<Segment>, to: &mut Vec<Segment>)
    requires { vec_len to.old + vec_len from.old ≤ vec_capacity to.old }
    ensures moved { to.new.items ≡ to.old.items ++ reverse from.old.items }
    ensures len { vec_len to.new ≡ vec_len to.old + vec_len from.old }
    ensures none { from.new.items ≡ [] }
    ensures none_left { vec_len from.new ≡ 0 }
    ensures from_capacity { vec_capacity from.new ≡ vec_capacity from.old }
    ensures to_capacity { vec_capacity to.new ≡ vec_capacity to.old }
{
    'segments: while let Some(segment) = from.pop() {
        to.push_reserved(segment);
    }
}

/// Moves so many segments from a purse to a list.
pub(crate) fn lend(purse: &mut Purse, count: u32, to: &mut Vec<Segment>)
    requires supply { count ≤ length purse.old.pages }
    requires space { vec_len to.old + count ≤ vec_capacity to.old }
    ensures len { vec_len to.new ≡ vec_len to.old + count }
    ensures capacity { vec_capacity to.new ≡ vec_capacity to.old }
    ensures room { purse.new.room ≡ purse.old.room }
    ensures segments { (h : ℕ → ℕ → ℕ) →
        segment_sum h purse.new.pages + segment_sum h to.new.items
        ≡ segment_sum h purse.old.pages + segment_sum h to.old.items }
{
    for _ in 0..count {
        match purse.take() {
            Some(segment) => to.push_reserved(segment),
            None => unreachable!(),
        }
    }
}

/// Moves all segments of a list to a purse.
pub(crate) fn give_back(from: &mut Vec<Segment>, purse: &mut Purse)
    requires { length purse.old.pages + vec_len from.old ≤ purse.old.room }
    ensures none { from.new.items ≡ [] }
    ensures none_left { vec_len from.new ≡ 0 }
    ensures capacity { vec_capacity from.new ≡ vec_capacity from.old }
    ensures room { purse.new.room ≡ purse.old.room }
    ensures segments { (h : ℕ → ℕ → ℕ) →
        segment_sum h purse.new.pages ≡ segment_sum h purse.old.pages + segment_sum h from.old.items }
{
    'segments: while let Some(segment) = from.pop() {
        purse.put(segment);
    }
}

/// Moves the oldest pages of a reader, so many of them, behind those of a list.
pub(crate) fn withdraw(reader: &mut PageReader, count: usize, to: &mut Vec<Segment>)
    requires among { count ≤ length reader.old.pages }
    requires space { vec_len to.old + count ≤ vec_capacity to.old }
    ensures moved { to.new.items ≡ to.old.items ++ take count reader.old.pages }
    ensures len { vec_len to.new ≡ vec_len to.old + count }
    ensures pages { reader.new.pages ≡ drop count reader.old.pages }
    ensures capacity { vec_capacity to.new ≡ vec_capacity to.old }
    ensures room { reader.new.room ≡ reader.old.room }
{
    for _ in 0..count {
        match reader.withdraw() {
            Some(page) => to.push_reserved(page),
            None => unreachable!(),
        }
    }
}

/// Moves the oldest pages of a reader, so many of them, to a purse.
pub(crate) fn withdraw_lent(reader: &mut PageReader, count: usize, purse: &mut Purse)
    requires among { count ≤ length reader.old.pages }
    requires space { length purse.old.pages + count ≤ purse.old.room }
    ensures pages { reader.new.pages ≡ drop count reader.old.pages }
    ensures room { reader.new.room ≡ reader.old.room }
    ensures purse_room { purse.new.room ≡ purse.old.room }
    ensures count { length purse.new.pages ≡ length purse.old.pages + count }
    ensures segments { (h : ℕ → ℕ → ℕ) →
        segment_sum h purse.new.pages
        ≡ segment_sum h purse.old.pages + segment_sum h (take count reader.old.pages) }
{
    for _ in 0..count {
        match reader.withdraw() {
            Some(page) => purse.put(page),
            None => unreachable!(),
        }
    }
}

/// Moves all pages of a reader behind those of a list, the oldest first. Nothing is left to be read.
pub(crate) fn withdraw_all(reader: &mut PageReader, to: &mut Vec<Segment>)
    requires { vec_len to.old + length reader.old.pages ≤ vec_capacity to.old }
    ensures moved { to.new.items ≡ to.old.items ++ reader.old.pages }
    ensures len { vec_len to.new ≡ vec_len to.old + length reader.old.pages }
    ensures capacity { vec_capacity to.new ≡ vec_capacity to.old }
    ensures reader { reader.new ≡ record { room = reader.old.room; pages = []; head = []; text = [] } }
{
    'pages: while let Some(page) = reader.withdraw() {
        to.push_reserved(page);
    }
}
