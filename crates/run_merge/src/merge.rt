ghost use Rattle.std.specs.Prelude.{◌≡◌, ◌<◌, ◌≤◌, ℕ, All, None, Ok, true, IfOk, IsErrOf, MatchResult, is_some, length, sum_by};
ghost use Rattle.std.specs.List.{flat_map};
ghost use Rattle.flow_outside.specs.Causes.{HasStreamCause};
ghost use Rattle.segment_core.specs.Segments.{segment_sum};
ghost use Rattle.paged_view.specs.Streams.{Advances, KnowsRows};
ghost use Rattle.run_merge.specs.Merging.{Merges, Rows, WaitsFitting, block_at, most_of, shown_at, yields};

use crate::streams::Streams;
use flow_outside::failure::StreamFault;
use flow_outside::spill::Spill;
use paged_view::order::RecordOrder;
use paged_view::record_ref::RecordRef;
use paged_view::stream::RecordStream;
use std::marker::Model;

/// Streams as one, by an order. It may not be let go: `end` gives the streams back.
///
/// The first record costs an `advance` of each stream, each further one an `advance` of the stream that gave the one
/// before; each costs a test and the prefix of the record that it reads, and a comparison of its prefix with that of the
/// record that each other stream shows. Only where two prefixes are the same are the records compared, at the place where
/// they lie. No call takes memory, and no record is copied.
pub struct Merge<'a, R, O> {
    streams: Streams<R>,
    order: &'a O,
    shown: Option<usize>,
}

impl<'a, R, O> Model for Merge<'a, R, O> {
    ghost use Rattle.run_merge.specs.Collected.{Merging};

    ghost Value = { Merging R O };

    ghost view = { λ m. record { room = m.streams.room; sources = m.streams.sources; order = m.order.now; shown = m.shown } };
}

impl<'a, R, O> Merge<'a, R, O> {
    /// Of each stream it gives what the stream has left. Nothing is read yet.
    pub fn new(streams: Streams<R>, order: &'a O) -> Merge<'a, R, O>
        ensures { result ≡ record { room = streams.room; sources = streams.sources; order = order.now; shown = None } }
    {
        Merge {
            streams,
            order,
            shown: None,
        }
    }

    /// The streams, as they are.
    pub fn end(self) -> Streams<R>
        ensures { result ≡ record { room = self.entry.room; sources = self.entry.sources } }
    {
        let Merge {
            streams,
            order: _,
            shown: _,
        } = self;
        streams
    }
}

impl<D: Spill, R: RecordStream<D>, O: RecordOrder> RecordStream<D> for Merge<'_, R, O> {
    ghost use Rattle.std.specs.Prelude.{All, sum_by};
    ghost use Rattle.std.specs.List.{flat_map};
    ghost use Rattle.run_merge.specs.Merging.{Merges, WaitsFitting, block_at, most_of, shown_at, yields};

    ghost left = { λ m told rows. Merges (O.cmp m.order)
        (yields (O.cmp m.order) (O.is_fit m.order) R.shown R.left told) m.sources rows };

    ghost IsReady = { λ m. All (λ s. R.IsReady s.stream) m.sources ×
        All (WaitsFitting (O.is_fit m.order) (O.prefix_of m.order) R.shown) m.sources };

    ghost shown = { λ m. shown_at R.shown m.sources m.shown };

    ghost block_read = { λ m. block_at R.block_read m.sources m.shown };

    ghost most_left = { λ m. sum_by (most_of R.shown R.most_left) m.sources };

    ghost held = { λ m. flat_map (λ s. R.held s.stream) m.sources };

    /// As the trait has it; the streams stay as many as they were.
    fn advance(&mut self, disk: &mut D) -> Result<bool, StreamFault>
        requires ready { All (λ s. R.IsReady s.stream) self.old.sources
            × All (WaitsFitting (O.is_fit self.old.order) (O.prefix_of self.old.order) R.shown) self.old.sources }
        requires known { KnowsRows (D.told disk.old)
            (Merges (O.cmp self.old.order) (yields (O.cmp self.old.order) (O.is_fit self.old.order) R.shown R.left (D.told disk.old)) self.old.sources) }
        ensures ready { All (λ s. R.IsReady s.stream) self.new.sources
            × All (WaitsFitting (O.is_fit self.new.order) (O.prefix_of self.new.order) R.shown) self.new.sources }
        ensures rows { IfOk result (λ more. (rows : Rows) →
            Merges (O.cmp self.old.order)
            (yields (O.cmp self.old.order) (O.is_fit self.old.order) R.shown R.left
            (D.told disk.old)) self.old.sources rows →
            Advances rows more (shown_at R.shown self.new.sources self.new.shown)
            (Merges (O.cmp self.new.order) (yields (O.cmp self.new.order) (O.is_fit self.new.order) R.shown R.left (D.told disk.new)) self.new.sources)) }
        ensures shows { MatchResult result
            (λ more. is_some (shown_at R.shown self.new.sources self.new.shown) ≡ more)
            (λ _. shown_at R.shown self.new.sources self.new.shown ≡ None) }
        ensures later { sum_by (most_of R.shown R.most_left) self.new.sources
            ≤ sum_by (most_of R.shown R.most_left) self.old.sources }
        ensures falls { result ≡ Ok true →
            sum_by (most_of R.shown R.most_left) self.new.sources
            < sum_by (most_of R.shown R.most_left) self.old.sources }
        ensures segments { (h : ℕ → ℕ → ℕ) → segment_sum h (flat_map (λ s. R.held s.stream) self.new.sources)
            ≡ segment_sum h (flat_map (λ s. R.held s.stream) self.old.sources) }
        ensures tells { D.told disk.new ≡ D.told disk.old }
        ensures counted { D.given disk.new ≡ D.given disk.old }
        ensures damaged { (block : ℕ) → IsErrOf result (StreamFault.Damaged block) →
            block ≡ block_at R.block_read self.new.sources self.new.shown }
        ensures cause { HasStreamCause (D.fault_count disk.old) (D.fault_count disk.new) (D.told disk.old) result }
        ensures count { length self.new.sources ≡ length self.old.sources }
        ensures room { self.new.room ≡ self.old.room }
    {
        self.shown = None;
        self.shown = self.streams.take_least(self.order, disk)?;
        Ok(self.shown.is_some())
    }

    fn head(&self) -> Option<RecordRef<'_>> {
        self.streams.head_at::<D>(self.shown)
    }

    fn block(&self) -> u64 {
        self.streams.block_at::<D>(self.shown)
    }
}
