ghost use Rattle.std.specs.Prelude.{◌≡◌, ℕ, ◌<◌, ◌≤◌, true, List, Option, None, Ok, IfOk, MatchResult, IsErrOf, is_some, option_map};
ghost use Rattle.flow_outside.specs.Blocks.{Blocks};
ghost use Rattle.segment_core.specs.Segments.{SegmentView, segment_sum};
ghost use Rattle.flow_outside.specs.Causes.{HasStreamCause};
ghost use Rattle.paged_view.specs.Streams.{KnowsRows, Advances};
ghost use Rattle.paged_view.specs.Seen.{seen_in};

use crate::record_ref::RecordRef;
use flow_outside::failure::StreamFault;
use flow_outside::spill::Spill;

/// Records that are read one after the other, some of them perhaps from a disk.
///
/// A stream stands for the list of records that it has left. Before the first `advance` it shows none.
pub trait RecordStream<D: Spill> {
    /// By what the disk tells it is known that these rows are left, in this order. Of a stream whose rows
    /// lie on a disk that doesn't tell, no rows are known.
    ghost left: { Self → Option Blocks → List (List ℕ) → Type 0 };

    /// It may be advanced.
    ghost IsReady: { Self → Type 0 };

    /// The record that it shows.
    ghost shown: { Self → Option (List ℕ) };

    /// The block of the page that was read last, 0 where none was read.
    ghost block_read: { Self → ℕ };

    /// At most how many records it still gives, whatever the disk tells.
    ghost most_left: { Self → ℕ };

    /// The segments that it holds.
    ghost held: { Self → List SegmentView };

    /// Moves to the next record: false exactly at the end. It changes no block of the disk, gives none
    /// and ends the life of none.
    ///
    /// `Spill` comes only where the disk's count of faults rose in this call, `Damaged` only over a disk
    /// that doesn't tell; it names the block of the page that was read last. After either no record is
    /// shown, and what is left is open.
    fn advance(&mut self, disk: &mut D) -> Result<bool, StreamFault>
        requires ready { IsReady self.old }
        requires known { KnowsRows (D.told disk.old) (left self.old (D.told disk.old)) }
        ensures ready { IsReady self.new }
        ensures rows { IfOk result (λ more. (rows : List (List ℕ)) →
            left self.old (D.told disk.old) rows →
            Advances rows more (shown self.new) (left self.new (D.told disk.new))) }
        ensures shows { MatchResult result
            (λ more. is_some (shown self.new) ≡ more)
            (λ _. shown self.new ≡ None) }
        ensures later { most_left self.new ≤ most_left self.old }
        ensures falls { result ≡ Ok true → most_left self.new < most_left self.old }
        ensures segments { (h : ℕ → ℕ → ℕ) → segment_sum h (held self.new) ≡ segment_sum h (held self.old) }
        ensures tells { D.told disk.new ≡ D.told disk.old }
        ensures counted { D.given disk.new ≡ D.given disk.old }
        ensures damaged { (block : ℕ) → IsErrOf result (StreamFault.Damaged block) →
            block ≡ block_read self.new }
        ensures cause { HasStreamCause (D.fault_count disk.old) (D.fault_count disk.new)
            (D.told disk.old) result };

    /// The record that it shows: `None` exactly before the first `advance`, and after one that answered
    /// false or a fault.
    fn head(&self) -> Option<RecordRef<'_>>
        ensures { option_map seen_in result ≡ shown self.now };

    /// The block of the page that was read last, 0 where none was read. Of a stream that is merged from
    /// others it is that of the one whose record it shows.
    fn block(&self) -> u64
        ensures { result ≡ block_read self.now };
}
