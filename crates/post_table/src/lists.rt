//! The spares on their way into the slots.
ghost use Rattle.std.specs.Prelude.{◌≡◌, ◌*◌, ◌+◌, ◌≤◌, [], ◌++◌, length, map, reverse, vec_len, vec_capacity, IfSome};
ghost use Rattle.post_table.specs.Seats.{size_of as size_of_pages};

use segment_core::Segment;
use std::alloc::Global;

/// Two empty lists with space reserved for so many segments and words.
pub(crate) fn reserve(alloc: Global, count: usize) -> Option<(Vec<Segment>, Vec<u64>)>
    ensures slots { IfSome result (λ lists. (lists.0.items ≡ []) × (vec_len lists.0 ≡ 0) × (count ≤ vec_capacity lists.0)) }
    ensures words { IfSome result (λ lists. (lists.1.items ≡ []) × (vec_len lists.1 ≡ 0) × (count ≤ vec_capacity lists.1)) }
{
    let words = Vec::with_capacity(alloc, count).ok()?;
    let slots = Vec::with_capacity(alloc, count).ok()?;
    Some((slots, words))
}

/// How many bytes the first segment has, 0 where there is none.
pub(crate) fn size_of(segments: &[Segment]) -> usize
    ensures { result ≡ size_of_pages segments.now }
{
    match segments.first() {
        Some(segment) => segment.bytes().len(),
        None => 0,
    }
}

/// Moves all segments of one list behind those of another, the last one first.
pub(crate) fn turn_over(from: &mut Vec<Segment>, to: &mut Vec<Segment>)
    requires { vec_len to.old + vec_len from.old ≤ vec_capacity to.old }
    ensures moved { to.new.items ≡ to.old.items ++ reverse from.old.items }
    ensures len { vec_len to.new ≡ vec_len to.old + vec_len from.old }
    ensures none { from.new.items ≡ [] }
    ensures none_left { vec_len from.new ≡ 0 }
    ensures from_capacity { vec_capacity from.new ≡ vec_capacity from.old }
    ensures to_capacity { vec_capacity to.new ≡ vec_capacity to.old }
{
    'segments: while let Some(segment) = from.pop() {
        to.push_reserved(segment);
    }
}

/// Writes the words of empty mailboxes in which these segments lie.
pub(crate) fn words_of(slots: &[Segment], words: &mut Vec<u64>)
    requires none { vec_len words.old ≡ 0 }
    requires space { length slots.now ≤ vec_capacity words.old }
    ensures { words.new.items ≡ map (λ segment. 2 * segment.id) slots.now }
{
    'segments: for segment in slots {
        words.push_reserved(2 * u64::from(segment.id()));
    }
}
