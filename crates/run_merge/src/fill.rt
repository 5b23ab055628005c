//! Streams are advanced whose record was given.
ghost use Rattle.std.specs.Prelude.{◌≡◌, ◌≢◌, ℕ, ◌<◌, ◌≤◌, false, true, All, OnOk, OnErr, IsErrOf, length, slice_index_or, sum_by};
ghost use Rattle.flow_outside.specs.Causes.{HasStreamCause};
ghost use Rattle.segment_core.specs.Segments.{segment_sum};
ghost use Rattle.paged_view.specs.Streams.{KnowsRows};
ghost use Rattle.run_merge.specs.Merging.{Merges, Rows, ShowsFitting, WaitsFitting, most_of, number_of_given, yields};
ghost use Rattle.run_merge.specs.Prefixes.{KeepsPrefix};
ghost use Rattle.run_merge.specs.declared.source.Source.{Source};

use crate::prefix::{Prefix, numbers_of};
use crate::source::Source;
use flow_outside::failure::StreamFault;
use flow_outside::spill::Spill;
use paged_view::order::RecordOrder;
use paged_view::stream::RecordStream;

/// Advances each stream whose record was given.
pub(crate) fn fill<D: Spill, R: RecordStream<D>, O: RecordOrder>(
    sources: &mut [Source<R>],
    order: &O,
    disk: &mut D,
) -> Result<(), StreamFault>
    requires ready { All (λ s. R.IsReady s.stream) sources.old }
    requires fitting { All (WaitsFitting (O.is_fit order.now) (O.prefix_of order.now) R.shown) sources.old }
    requires known { KnowsRows (D.told disk.old) (Merges (O.cmp order.now) (yields (O.cmp order.now) (O.is_fit order.now) R.shown R.left (D.told disk.old)) sources.old) }
    ensures ready { All (λ s. R.IsReady s.stream) sources.new }
    ensures fitting { All (WaitsFitting (O.is_fit order.now) (O.prefix_of order.now) R.shown) sources.new }
    ensures waits { OnOk result (All (λ s. s.given ≡ false) sources.new) }
    ensures rows { OnOk result ((rows : Rows) →
        Merges (O.cmp order.now)
        (yields (O.cmp order.now) (O.is_fit order.now) R.shown R.left
        (D.told disk.old)) sources.old rows →
        Merges (O.cmp order.now) (yields (O.cmp order.now) (O.is_fit order.now) R.shown R.left (D.told disk.new)) sources.new rows) }
    ensures later { sum_by (most_of R.shown R.most_left) sources.new
        ≤ sum_by (most_of R.shown R.most_left) sources.old }
    ensures count { length sources.new ≡ length sources.old }
    ensures segments { (h : ℕ → ℕ → ℕ) → sum_by (λ s. segment_sum h (R.held s.stream)) sources.new
        ≡ sum_by (λ s. segment_sum h (R.held s.stream)) sources.old }
    ensures tells { D.told disk.new ≡ D.told disk.old }
    ensures counted { D.given disk.new ≡ D.given disk.old }
    ensures damaged { (block : ℕ) → IsErrOf result (StreamFault.Damaged block) →
        block ≡ number_of_given R.block_read sources.new }
    ensures cause { HasStreamCause (D.fault_count disk.old) (D.fault_count disk.new) (D.told disk.old) result }
{
    for at in 0..sources.len() {
        match fill_at(sources, at, order, disk) {
            Ok(()) => (),
            Err(fault) => return Err(fault),
        }
    }
    Ok(())
}

/// Advances the stream at a place, where its record was given.
fn fill_at<D: Spill, R: RecordStream<D>, O: RecordOrder>(
    sources: &mut [Source<R>],
    at: usize,
    order: &O,
    disk: &mut D,
) -> Result<(), StreamFault>
    requires there { at < length sources.old }
    requires ready { All (λ s. R.IsReady s.stream) sources.old }
    requires fitting { All (WaitsFitting (O.is_fit order.now) (O.prefix_of order.now) R.shown) sources.old }
    requires known { KnowsRows (D.told disk.old) (Merges (O.cmp order.now) (yields (O.cmp order.now) (O.is_fit order.now) R.shown R.left (D.told disk.old)) sources.old) }
    ensures ready { All (λ s. R.IsReady s.stream) sources.new }
    ensures fitting { All (WaitsFitting (O.is_fit order.now) (O.prefix_of order.now) R.shown) sources.new }
    ensures waits { (d : Source R) → OnOk result ((slice_index_or sources.new at d).given ≡ false) }
    ensures rows { OnOk result ((rows : Rows) →
        Merges (O.cmp order.now)
        (yields (O.cmp order.now) (O.is_fit order.now) R.shown R.left
        (D.told disk.old)) sources.old rows →
        Merges (O.cmp order.now) (yields (O.cmp order.now) (O.is_fit order.now) R.shown R.left (D.told disk.new)) sources.new rows) }
    ensures later { sum_by (most_of R.shown R.most_left) sources.new
        ≤ sum_by (most_of R.shown R.most_left) sources.old }
    ensures count { length sources.new ≡ length sources.old }
    ensures same { (i : ℕ) (d : Source R) → i ≢ at → slice_index_or sources.new i d
        ≡ slice_index_or sources.old i d }
    ensures segments { (h : ℕ → ℕ → ℕ) → sum_by (λ s. segment_sum h (R.held s.stream)) sources.new
        ≡ sum_by (λ s. segment_sum h (R.held s.stream)) sources.old }
    ensures tells { D.told disk.new ≡ D.told disk.old }
    ensures counted { D.given disk.new ≡ D.given disk.old }
    ensures failed { (d : Source R) → OnErr result ((slice_index_or sources.new at d).given ≡ true) }
    ensures damaged { (block : ℕ) (d : Source R) → IsErrOf result (StreamFault.Damaged block) →
        block ≡ R.block_read (slice_index_or sources.new at d).stream }
    ensures cause { HasStreamCause (D.fault_count disk.old) (D.fault_count disk.new) (D.told disk.old) result }
{
    fill_place(sources, at, order, disk)
}

/// The same, told by that stream alone.
fn fill_place<D: Spill, R: RecordStream<D>, O: RecordOrder>(
    sources: &mut [Source<R>],
    at: usize,
    order: &O,
    disk: &mut D,
) -> Result<(), StreamFault>
    requires there { at < length sources.old }
    requires ready { (d : Source R) → R.IsReady (slice_index_or sources.old at d).stream }
    requires fitting { (d : Source R) →
        WaitsFitting (O.is_fit order.now) (O.prefix_of order.now) R.shown
        (slice_index_or sources.old at d) }
    requires known { (d : Source R) →
        KnowsRows (D.told disk.old)
        (yields (O.cmp order.now) (O.is_fit order.now) R.shown R.left (D.told disk.old)
        (slice_index_or sources.old at d)) }
    ensures ready { (d : Source R) → R.IsReady (slice_index_or sources.new at d).stream }
    ensures fitting { (d : Source R) →
        WaitsFitting (O.is_fit order.now) (O.prefix_of order.now) R.shown
        (slice_index_or sources.new at d) }
    ensures waits { (d : Source R) → OnOk result ((slice_index_or sources.new at d).given ≡ false) }
    ensures rows { (d : Source R) → OnOk result ((rows : Rows) →
        yields (O.cmp order.now) (O.is_fit order.now) R.shown R.left (D.told disk.old)
        (slice_index_or sources.old at d) rows →
        yields (O.cmp order.now) (O.is_fit order.now) R.shown R.left (D.told disk.new) (slice_index_or sources.new at d) rows) }
    ensures later { (d : Source R) → most_of R.shown R.most_left (slice_index_or sources.new at d)
        ≤ most_of R.shown R.most_left (slice_index_or sources.old at d) }
    ensures count { length sources.new ≡ length sources.old }
    ensures same { (i : ℕ) (d : Source R) → i ≢ at → slice_index_or sources.new i d
        ≡ slice_index_or sources.old i d }
    ensures segments { (h : ℕ → ℕ → ℕ) (d : Source R) →
        segment_sum h (R.held (slice_index_or sources.new at d).stream)
        ≡ segment_sum h (R.held (slice_index_or sources.old at d).stream) }
    ensures tells { D.told disk.new ≡ D.told disk.old }
    ensures counted { D.given disk.new ≡ D.given disk.old }
    ensures failed { (d : Source R) → OnErr result ((slice_index_or sources.new at d).given ≡ true) }
    ensures damaged { (block : ℕ) (d : Source R) → IsErrOf result (StreamFault.Damaged block) →
        block ≡ R.block_read (slice_index_or sources.new at d).stream }
    ensures cause { HasStreamCause (D.fault_count disk.old) (D.fault_count disk.new) (D.told disk.old) result }
{
    fill_one(&mut sources[at], order, disk)
}

/// Advances one stream where its record was given, tests the record that it shows then, and keeps its
/// prefix.
fn fill_one<D: Spill, R: RecordStream<D>, O: RecordOrder>(
    source: &mut Source<R>,
    order: &O,
    disk: &mut D,
) -> Result<(), StreamFault>
    requires ready { R.IsReady source.old.stream }
    requires fitting { WaitsFitting (O.is_fit order.now) (O.prefix_of order.now) R.shown source.old }
    requires known { KnowsRows (D.told disk.old) (yields (O.cmp order.now) (O.is_fit order.now) R.shown R.left (D.told disk.old) source.old) }
    ensures ready { R.IsReady source.new.stream }
    ensures fitting { WaitsFitting (O.is_fit order.now) (O.prefix_of order.now) R.shown source.new }
    ensures waits { OnOk result (source.new.given ≡ false) }
    ensures rows { OnOk result ((rows : Rows) →
        yields (O.cmp order.now) (O.is_fit order.now) R.shown R.left (D.told disk.old) source.old rows →
        yields (O.cmp order.now) (O.is_fit order.now) R.shown R.left (D.told disk.new) source.new rows) }
    ensures later { most_of R.shown R.most_left source.new ≤ most_of R.shown R.most_left source.old }
    ensures segments { (h : ℕ → ℕ → ℕ) → segment_sum h (R.held source.new.stream)
        ≡ segment_sum h (R.held source.old.stream) }
    ensures tells { D.told disk.new ≡ D.told disk.old }
    ensures counted { D.given disk.new ≡ D.given disk.old }
    ensures failed { OnErr result (source.new.given ≡ true) }
    ensures damaged { (block : ℕ) → IsErrOf result (StreamFault.Damaged block) →
        block ≡ R.block_read source.new.stream }
    ensures cause { HasStreamCause (D.fault_count disk.old) (D.fault_count disk.new) (D.told disk.old) result }
{
    if !source.given {
        return Ok(());
    }
    if source.stream.advance(disk)? {
        if let Some(row) = source.stream.head() {
            if !order.fits(&row) {
                return Err(StreamFault::Damaged {
                    block: source.stream.block(),
                });
            }
        }
    }
    source.prefix = prefix_of(&source.stream, order);
    source.given = false;
    Ok(())
}

/// The prefix of the record that a stream shows.
fn prefix_of<D: Spill, R: RecordStream<D>, O: RecordOrder>(stream: &R, order: &O) -> Option<Prefix>
    requires { ShowsFitting (O.is_fit order.now) (R.shown stream.now) }
    ensures { KeepsPrefix (O.prefix_of order.now) result (R.shown stream.now) }
{
    match stream.head() {
        Some(row) => Some(numbers_of(order.prefix(&row))),
        None => None,
    }
}
