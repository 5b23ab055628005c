ghost use Rattle.std.specs.Prelude.{◌≡◌, ◌≤◌, ◌<◌, ℕ, [], ◌∷◌, ◌++◌, All, IfOk, IsErrOf, MatchOption, is_some, length, option_map, sum_by};
ghost use Rattle.std.specs.List.{flat_map};
ghost use Rattle.flow_outside.specs.Causes.{HasStreamCause};
ghost use Rattle.segment_core.specs.Segments.{segment_sum};
ghost use Rattle.paged_view.specs.Seen.{seen_in};
ghost use Rattle.paged_view.specs.Streams.{Advances, KnowsRows};
ghost use Rattle.run_merge.specs.declared.source.Source.{Source};
ghost use Rattle.run_merge.specs.Merging.{Merges, Rows, WaitsFitting, most_of, added, block_at, number_of_given, shown_at, yields};

use crate::choose::{block_of, block_of_given, head_of};
use crate::source::Source;
use crate::take::take_least;
use flow_outside::failure::{Memory, StreamFault};
use flow_outside::spill::Spill;
use paged_view::order::RecordOrder;
use paged_view::record_ref::RecordRef;
use paged_view::stream::RecordStream;
use std::alloc::Global;
use std::marker::Model;

/// Streams that are to be merged, at most `room` of them, seen as their list and that number. It may not be let go, as
/// streams may hold segments: `pop` takes them out, and `end` ends it.
pub struct Streams<R> {
    pub(crate) items: Vec<Source<R>>,
    room: u32,
}

impl<R> Model for Streams<R> {
    ghost use Rattle.std.specs.Prelude.{vec_len, vec_capacity, length, ◌≡◌, ◌≤◌};
    ghost use Rattle.run_merge.specs.Collected.{Collected};

    ghost Value = { Collected R };

    ghost view = { λ s. record { room = s.room; sources = s.items.items } };

    ghost invariant = { λ s. (vec_len s.items ≡ length s.items.items) × (s.room ≤ vec_capacity s.items) };
}

impl<R> Streams<R> {
    /// None yet, of at most `room`. It takes memory for their list, and no call after it takes any.
    pub fn open(alloc: Global, room: u32) -> Result<Streams<R>, Memory>
        ensures { IfOk result (λ streams. streams ≡ record { room = room; sources = [] }) }
    {
        match Vec::with_capacity(alloc, room as usize) {
            Ok(items) => Ok(Streams { items, room }),
            Err(_) => Err(Memory),
        }
    }

    /// Adds a stream behind the others. It counts as not advanced: what it shows isn't given, only what it has left.
    pub fn push(&mut self, stream: R)
        requires { length self.old.sources < self.old.room }
        ensures { self.new ≡ record { room = self.old.room; sources = self.old.sources ++ added stream ∷ [] } }
    {
        self.items.push_reserved(Source {
            stream,
            given: true,
            prefix: None,
        });
    }

    /// Takes the last one out, None exactly where there is none.
    pub fn pop(&mut self) -> Option<R>
        ensures room { self.new.room ≡ self.old.room }
        ensures last { MatchOption result
            ((self.old.sources ≡ []) × (self.new.sources ≡ []))
            (λ stream. (source : Source R) × (self.old.sources ≡ self.new.sources ++ source ∷ []) ×
            (source.stream ≡ stream)) }
    {
        match self.items.pop() {
            Some(source) => {
                let Source {
                    stream,
                    given: _,
                    prefix: _,
                } = source;
                Some(stream)
            }
            None => None,
        }
    }

    /// Ends a list of no streams.
    pub fn end(self)
        requires { self.sources ≡ [] }
    {
        let Streams { items, room: _ } = self;
        items.destroy_empty();
    }

    /// As `take_least` of the sources.
    pub(crate) fn take_least<D: Spill, O: RecordOrder>(
        &mut self,
        order: &O,
        disk: &mut D,
    ) -> Result<Option<usize>, StreamFault>
    where
        R: RecordStream<D>,
        requires ready { All (λ s. R.IsReady s.stream) self.old.sources }
        requires fitting { All (WaitsFitting (O.is_fit order.now) (O.prefix_of order.now) R.shown) self.old.sources }
        requires known { KnowsRows (D.told disk.old) (Merges (O.cmp order.now) (yields (O.cmp order.now) (O.is_fit order.now) R.shown R.left (D.told disk.old)) self.old.sources) }
        ensures ready { All (λ s. R.IsReady s.stream) self.new.sources }
        ensures fitting { All (WaitsFitting (O.is_fit order.now) (O.prefix_of order.now) R.shown) self.new.sources }
        ensures rows { IfOk result (λ place. (rows : Rows) →
            Merges (O.cmp order.now)
            (yields (O.cmp order.now) (O.is_fit order.now) R.shown R.left
            (D.told disk.old)) self.old.sources rows →
            Advances rows (is_some place) (shown_at R.shown self.new.sources place)
            (Merges (O.cmp order.now) (yields (O.cmp order.now) (O.is_fit order.now) R.shown R.left (D.told disk.new)) self.new.sources)) }
        ensures shows { IfOk result (λ place. is_some (shown_at R.shown self.new.sources place) ≡ is_some place) }
        ensures later { sum_by (most_of R.shown R.most_left) self.new.sources
            ≤ sum_by (most_of R.shown R.most_left) self.old.sources }
        ensures falls { IfOk result
            (λ place. MatchOption place Unit
            (λ _. sum_by (most_of R.shown R.most_left) self.new.sources
            < sum_by (most_of R.shown R.most_left) self.old.sources)) }
        ensures room { self.new.room ≡ self.old.room }
        ensures count { length self.new.sources ≡ length self.old.sources }
        ensures damaged { (block : ℕ) → IsErrOf result (StreamFault.Damaged block) →
            block ≡ number_of_given R.block_read self.new.sources }
        ensures segments { (h : ℕ → ℕ → ℕ) →
            segment_sum h (flat_map (λ s. R.held s.stream) self.new.sources)
            ≡ segment_sum h (flat_map (λ s. R.held s.stream) self.old.sources) }
        ensures tells { D.told disk.new ≡ D.told disk.old }
        ensures counted { D.given disk.new ≡ D.given disk.old }
        ensures cause { HasStreamCause (D.fault_count disk.old) (D.fault_count disk.new) (D.told disk.old) result }
    {
        take_least(&mut self.items, order, disk)
    }

    /// The record that the stream at a place shows.
    pub(crate) fn head_at<D: Spill>(&self, place: Option<usize>) -> Option<RecordRef<'_>>
    where
        R: RecordStream<D>,
        ensures { option_map seen_in result ≡ shown_at R.shown self.now.sources place }
    {
        match place {
            Some(place) => head_of::<D, R>(&self.items, place),
            None => None,
        }
    }

    /// The block that the stream at a place read last, and where there is no place that of the first
    /// stream whose record was given.
    pub(crate) fn block_at<D: Spill>(&self, place: Option<usize>) -> u64
    where
        R: RecordStream<D>,
        ensures { result ≡ block_at R.block_read self.now.sources place }
    {
        match place {
            Some(place) => block_of::<D, R>(&self.items, place),
            None => block_of_given::<D, R>(&self.items),
        }
    }
}
