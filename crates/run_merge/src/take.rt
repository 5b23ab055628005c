//! The first of the least records is given.
ghost use Rattle.std.specs.Prelude.{◌≡◌, ℕ, ◌<◌, ◌≤◌, Option, false, All, IfOk, IsErrOf, MatchOption, is_some, length, sum_by};
ghost use Rattle.std.specs.List.{flat_map};
ghost use Rattle.flow_outside.specs.Blocks.{Blocks};
ghost use Rattle.flow_outside.specs.Causes.{HasStreamCause};
ghost use Rattle.segment_core.specs.Segments.{segment_sum};
ghost use Rattle.paged_view.specs.Streams.{Advances, KnowsRows};
ghost use Rattle.run_merge.specs.Merging.{Merges, Rows, WaitsFitting, most_of, number_of_given, shown_at, yields};

use crate::choose::{give, least};
use crate::fill::fill;
use crate::source::Source;
use flow_outside::failure::StreamFault;
use flow_outside::spill::Spill;
use paged_view::order::RecordOrder;
use paged_view::stream::RecordStream;

/// Advances the streams whose record was given, and gives the first of the least records: its place, None at the end.
pub(crate) fn take_least<D: Spill, R: RecordStream<D>, O: RecordOrder>(
    sources: &mut [Source<R>],
    order: &O,
    disk: &mut D,
) -> Result<Option<usize>, StreamFault>
    requires ready { All (λ s. R.IsReady s.stream) sources.old }
    requires fitting { All (WaitsFitting (O.is_fit order.now) (O.prefix_of order.now) R.shown) sources.old }
    requires known { KnowsRows (D.told disk.old) (Merges (O.cmp order.now) (yields (O.cmp order.now) (O.is_fit order.now) R.shown R.left (D.told disk.old)) sources.old) }
    ensures ready { All (λ s. R.IsReady s.stream) sources.new }
    ensures fitting { All (WaitsFitting (O.is_fit order.now) (O.prefix_of order.now) R.shown) sources.new }
    ensures rows { IfOk result (λ place. (rows : Rows) →
        Merges (O.cmp order.now)
        (yields (O.cmp order.now) (O.is_fit order.now) R.shown R.left
        (D.told disk.old)) sources.old rows →
        Advances rows (is_some place) (shown_at R.shown sources.new place)
        (Merges (O.cmp order.now) (yields (O.cmp order.now) (O.is_fit order.now) R.shown R.left (D.told disk.new)) sources.new)) }
    ensures shows { IfOk result (λ place. is_some (shown_at R.shown sources.new place) ≡ is_some place) }
    ensures later { sum_by (most_of R.shown R.most_left) sources.new
        ≤ sum_by (most_of R.shown R.most_left) sources.old }
    ensures falls { IfOk result
        (λ place. MatchOption place Unit
        (λ _. sum_by (most_of R.shown R.most_left) sources.new
        < sum_by (most_of R.shown R.most_left) sources.old)) }
    ensures count { length sources.new ≡ length sources.old }
    ensures segments { (h : ℕ → ℕ → ℕ) →
        segment_sum h (flat_map (λ s. R.held s.stream) sources.new)
        ≡ segment_sum h (flat_map (λ s. R.held s.stream) sources.old) }
    ensures tells { D.told disk.new ≡ D.told disk.old }
    ensures counted { D.given disk.new ≡ D.given disk.old }
    ensures damaged { (block : ℕ) → IsErrOf result (StreamFault.Damaged block) →
        block ≡ number_of_given R.block_read sources.new }
    ensures cause { HasStreamCause (D.fault_count disk.old) (D.fault_count disk.new) (D.told disk.old) result }
{
    fill(sources, order, disk)?;
    Ok(take_first(sources, order))
}

/// Gives the first of the least records that are shown.
fn take_first<D: Spill, R: RecordStream<D>, O: RecordOrder>(
    sources: &mut [Source<R>],
    order: &O,
) -> Option<usize>
    requires ready { All (λ s. R.IsReady s.stream) sources.old }
    requires fitting { All (WaitsFitting (O.is_fit order.now) (O.prefix_of order.now) R.shown) sources.old }
    requires waits { All (λ s. s.given ≡ false) sources.old }
    ensures ready { All (λ s. R.IsReady s.stream) sources.new }
    ensures fitting { All (WaitsFitting (O.is_fit order.now) (O.prefix_of order.now) R.shown) sources.new }
    ensures rows { (told : Option Blocks) (rows : Rows) →
        Merges (O.cmp order.now)
        (yields (O.cmp order.now) (O.is_fit order.now) R.shown R.left told) sources.old rows →
        Advances rows (is_some result) (shown_at R.shown sources.new result)
        (Merges (O.cmp order.now) (yields (O.cmp order.now) (O.is_fit order.now) R.shown R.left told) sources.new) }
    ensures shows { is_some (shown_at R.shown sources.new result) ≡ is_some result }
    ensures later { sum_by (most_of R.shown R.most_left) sources.new
        ≤ sum_by (most_of R.shown R.most_left) sources.old }
    ensures falls { MatchOption result Unit
        (λ _. sum_by (most_of R.shown R.most_left) sources.new
        < sum_by (most_of R.shown R.most_left) sources.old) }
    ensures count { length sources.new ≡ length sources.old }
    ensures segments { (h : ℕ → ℕ → ℕ) → sum_by (λ s. segment_sum h (R.held s.stream)) sources.new
        ≡ sum_by (λ s. segment_sum h (R.held s.stream)) sources.old }
{
    let best = least(sources, order);
    if let Some(place) = best {
        give(sources, place);
    }
    best
}
