//! The stream whose record stands first.
ghost use Rattle.std.specs.Prelude.{◌≡◌, ◌≢◌, ℕ, ◌+◌, ◌<◌, All, true, Some, length, option_map, slice_index_or};
ghost use Rattle.paged_view.specs.Seen.{seen_in};
ghost use Rattle.run_merge.specs.declared.source.Source.{Source};
ghost use Rattle.run_merge.specs.Merging.{IsBestBelow, IsLess, ShowsFitting, number_at, number_of_given, shown_at};
ghost use Rattle.run_merge.specs.Prefixes.{KeepsPrefix};

use crate::prefix::by_prefix;
use crate::source::Source;
use flow_outside::spill::Spill;
use paged_view::order::RecordOrder;
use paged_view::record_ref::RecordRef;
use paged_view::stream::RecordStream;
use std::cmp::Ordering;

/// The place of the first of the least records that are shown, None where none is.
pub(crate) fn least<D: Spill, R: RecordStream<D>, O: RecordOrder>(
    sources: &[Source<R>],
    order: &O,
) -> Option<usize>
    requires fitting { All (λ s. ShowsFitting (O.is_fit order.now) (R.shown s.stream)) sources.now }
    requires kept { All (λ s. KeepsPrefix (O.prefix_of order.now) s.prefix (R.shown s.stream)) sources.now }
    ensures { IsBestBelow (O.cmp order.now) R.shown sources.now (length sources.now) result }
{
    let mut best = None;
    for at in 0..sources.len() {
        best = better(sources, order, best, at);
    }
    best
}

/// Of the place so far and this one, the one that shows the lesser record.
fn better<D: Spill, R: RecordStream<D>, O: RecordOrder>(
    sources: &[Source<R>],
    order: &O,
    best: Option<usize>,
    at: usize,
) -> Option<usize>
    requires there { at < length sources.now }
    requires fitting { All (λ s. ShowsFitting (O.is_fit order.now) (R.shown s.stream)) sources.now }
    requires kept { All (λ s. KeepsPrefix (O.prefix_of order.now) s.prefix (R.shown s.stream)) sources.now }
    requires best { IsBestBelow (O.cmp order.now) R.shown sources.now at best }
    ensures { IsBestBelow (O.cmp order.now) R.shown sources.now (at + 1) result }
{
    if sources[at].prefix.is_none() {
        return best;
    }
    let Some(place) = best else {
        return Some(at);
    };
    if is_less(&sources[at], &sources[place], order) {
        return Some(at);
    }
    best
}

/// Whether one source shows a lesser record than another: by their prefixes, and by the records where these
/// are the same. It is false where either shows none.
fn is_less<D: Spill, R: RecordStream<D>, O: RecordOrder>(
    one: &Source<R>,
    other: &Source<R>,
    order: &O,
) -> bool
    requires one_fits { ShowsFitting (O.is_fit order.now) (R.shown one.now.stream) }
    requires other_fits { ShowsFitting (O.is_fit order.now) (R.shown other.now.stream) }
    requires one_kept { KeepsPrefix (O.prefix_of order.now) one.now.prefix (R.shown one.now.stream) }
    requires other_kept { KeepsPrefix (O.prefix_of order.now) other.now.prefix (R.shown other.now.stream) }
    ensures { IsLess (O.cmp order.now) result (R.shown one.now.stream) (R.shown other.now.stream) }
{
    let Some(mine) = one.prefix else {
        return false;
    };
    let Some(its) = other.prefix else {
        return false;
    };
    match by_prefix(mine, its) {
        Ordering::Less => true,
        Ordering::Greater => false,
        Ordering::Equal => is_less_row(&one.stream, &other.stream, order),
    }
}

/// The same by the records alone.
fn is_less_row<D: Spill, R: RecordStream<D>, O: RecordOrder>(one: &R, other: &R, order: &O) -> bool
    requires one_fits { ShowsFitting (O.is_fit order.now) (R.shown one.now) }
    requires other_fits { ShowsFitting (O.is_fit order.now) (R.shown other.now) }
    ensures { IsLess (O.cmp order.now) result (R.shown one.now) (R.shown other.now) }
{
    let Some(row) = one.head() else {
        return false;
    };
    let Some(its) = other.head() else {
        return false;
    };
    order.compare(&row, &its).is_lt()
}

/// The record of the source at a place is given.
pub(crate) fn give<R>(sources: &mut [Source<R>], place: usize)
    requires { place < length sources.old }
    ensures count { length sources.new ≡ length sources.old }
    ensures same { (i : ℕ) (d : Source R) → i ≢ place → slice_index_or sources.new i d
        ≡ slice_index_or sources.old i d }
    ensures stream { (d : Source R) → (slice_index_or sources.new place d).stream
        ≡ (slice_index_or sources.old place d).stream }
    ensures given { (d : Source R) → (slice_index_or sources.new place d).given ≡ true }
{
    sources[place].given = true;
}

/// The record that the source at a place shows, None where there is no place.
pub(crate) fn head_of<D: Spill, R: RecordStream<D>>(
    sources: &[Source<R>],
    place: usize,
) -> Option<RecordRef<'_>>
    ensures { option_map seen_in result ≡ shown_at R.shown sources.now (Some place) }
{
    if place >= sources.len() {
        return None;
    }
    sources[place].stream.head()
}

/// The block that the source at a place read last, 0 where there is no place.
pub(crate) fn block_of<D: Spill, R: RecordStream<D>>(sources: &[Source<R>], place: usize) -> u64
    ensures { result ≡ number_at R.block_read sources.now (Some place) }
{
    if place >= sources.len() {
        return 0;
    }
    sources[place].stream.block()
}

/// The block that the first source read last whose record was given, 0 where there is none.
pub(crate) fn block_of_given<D: Spill, R: RecordStream<D>>(sources: &[Source<R>]) -> u64
    ensures { result ≡ number_of_given R.block_read sources.now }
{
    for place in 0..sources.len() {
        if sources[place].given {
            return sources[place].stream.block();
        }
    }
    0
}
