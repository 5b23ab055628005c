ghost use Rattle.std.specs.Prelude.{◌≡◌, ℕ, ◌+◌, ◌^◌, ◌<◌, ◌≤◌, Some, IfOk, OnOk, OnErr, length};
ghost use Rattle.flow_outside.specs.Blocks.{BothTold, IsLive, IsGiven, Becomes};
ghost use Rattle.flow_outside.specs.Causes.{HasCause, Rose};
ghost use Rattle.flow_outside.specs.Told.{IfTold};
ghost use Rattle.paged_view.specs.Pages.{body, used_bytes, used, IsSameSegment};
ghost use Rattle.spool.specs.Changes.{AllStand, IsAppended, IsKept, IsPushed, IsReady, IsWithdrawn, LeavesOpen};
ghost use Rattle.spool.specs.Headers.{IsSound, next_of, stamped};
ghost use Rattle.spool.specs.Runs.{IsWritten};

use crate::header::stamp;
use crate::run::Run;
use flow_outside::failure::Failed;
use flow_outside::spill::Spill;
use segment_core::Segment;

/// Puts pages on a disk, one after the other. It holds the block that its next page goes to.
#[derive(Debug, Drop)]
pub struct RunWriter {
    first: u64,
    end: u64,
    pages: u64,
}

impl RunWriter {
    /// A writer of a run that has no page yet. It takes a block.
    pub fn start<D: Spill>(disk: &mut D) -> Result<RunWriter, Failed>
        ensures cause { HasCause (D.fault_count disk.old) (D.fault_count disk.new) result }
        ensures none { IfOk result (λ writer. (writer.end ≡ writer.first) × (writer.pages ≡ 0)) }
        ensures given { IfOk result (λ writer.
            BothTold (D.told disk.old) (D.told disk.new) (IsGiven writer.first)) }
        ensures written { IfOk result (λ writer. IfTold (D.told disk.new)
            (λ blocks. (size : ℕ) → IsWritten blocks size writer)) }
        ensures refused { OnErr result (D.told disk.new ≡ D.told disk.old) }
    {
        let first = disk.fresh()?;
        Ok(RunWriter {
            first,
            end: first,
            pages: 0,
        })
    }

    /// Puts a page behind those that were pushed, with its number and the block of the page behind it in
    /// its header. It takes a block for that page. It costs one write of the page.
    ///
    /// `Failed` only where the disk's count of faults rose in this call. Then the writer is as it was, no
    /// block more is live, and the pages that were pushed still stand as a run.
    pub fn push<D: Spill>(&mut self, disk: &mut D, page: &mut Segment) -> Result<(), Failed>
        requires some { 0 < used page.old }
        requires within { used page.old ≤ length (body page.old) }
        requires live { IfTold (D.told disk.old) (λ blocks. IsLive blocks self.old.end) }
        ensures cause { HasCause (D.fault_count disk.old) (D.fault_count disk.new) result }
        ensures counted { OnOk result
            ((self.new.first ≡ self.old.first) × (self.new.pages ≡ self.old.pages + 1)) }
        ensures stamped { OnOk result (page.new.bytes ≡ stamped page.old.bytes self.old.pages self.new.end) }
        ensures same { IsSameSegment page.old page.new }
        ensures text { used_bytes page.new ≡ used_bytes page.old }
        ensures appended { OnOk result (BothTold (D.told disk.old) (D.told disk.new)
            (IsAppended self.old.end self.new.end page.new.bytes)) }
        ensures pushed { OnOk result (BothTold (D.told disk.old) (D.told disk.new)
            (λ old new. IsWritten old (length page.old.bytes) self.old →
            IsPushed (length page.old.bytes) self.old self.new page.new.bytes old new)) }
        ensures refused { OnErr result ((self.new ≡ self.old)
            × BothTold (D.told disk.old) (D.told disk.new) (LeavesOpen self.old.end)) }
        ensures kept { OnErr result (BothTold (D.told disk.old) (D.told disk.new)
            (λ old new. (size : ℕ) → IsWritten old size self.old → IsKept size self.old old new)) }
    {
        if self.pages == u64::MAX {
            return Err(exhaust(disk));
        }
        let next = append(disk, self.end, self.pages, page)?;
        self.end = next;
        self.pages += 1;
        Ok(())
    }

    /// The run of the pages that were pushed so far, to which later ones don't belong.
    pub fn run(&self) -> Run
        ensures { result ≡ record { first = self.now.first; pages = self.now.pages } }
    {
        Run {
            first: self.first,
            pages: self.pages,
        }
    }

    /// The run of the pages that were pushed.
    pub fn close(self) -> Run
        ensures { result ≡ record { first = self.first; pages = self.pages } }
    {
        Run {
            first: self.first,
            pages: self.pages,
        }
    }
}

/// Puts page `number` of a run into the block `end`, and gives the block for the page behind it. After
/// `Failed` no block more is live.
fn append<D: Spill>(disk: &mut D, end: u64, number: u64, page: &mut Segment) -> Result<u64, Failed>
    requires some { 0 < used page.old }
    requires within { used page.old ≤ length (body page.old) }
    requires live { IfTold (D.told disk.old) (λ blocks. IsLive blocks end) }
    ensures cause { HasCause (D.fault_count disk.old) (D.fault_count disk.new) result }
    ensures sound { OnOk result (IsSound number page.new.bytes) }
    ensures names { IfOk result (λ next. next_of page.new.bytes ≡ next) }
    ensures stamped { IfOk result (λ next. page.new.bytes ≡ stamped page.old.bytes number next) }
    ensures same { IsSameSegment page.old page.new }
    ensures text { used_bytes page.new ≡ used_bytes page.old }
    ensures appended { IfOk result (λ next.
        BothTold (D.told disk.old) (D.told disk.new) (IsAppended end next page.new.bytes)) }
    ensures refused { OnErr result (BothTold (D.told disk.old) (D.told disk.new) (LeavesOpen end)) }
{
    let next = disk.fresh()?;
    stamp(page, number, next);
    match put_or_free(disk, end, next, page.bytes()) {
        Ok(()) => Ok(next),
        Err(fault) => Err(fault),
    }
}

/// Puts a page into the block `end`. After `Failed` the block `next` isn't live any more.
fn put_or_free<D: Spill>(disk: &mut D, end: u64, next: u64, page: &[u8]) -> Result<(), Failed>
    requires { IfTold (D.told disk.old) (IsReady end next) }
    ensures cause { HasCause (D.fault_count disk.old) (D.fault_count disk.new) result }
    ensures put { OnOk result (BothTold (D.told disk.old) (D.told disk.new) (Becomes end (Some (Some page.now)))) }
    ensures refused { OnErr result (BothTold (D.told disk.old) (D.told disk.new) (IsWithdrawn end next)) }
{
    match disk.put(end, page) {
        Ok(()) => Ok(()),
        Err(fault) => {
            disk.free(next);
            Err(fault)
        }
    }
}

/// Asks for blocks, and frees each at once, until the disk fails, as every disk does after 2^44 of them.
/// So a run's pages can't outgrow their count, and the answer then is the disk's own.
fn exhaust<D: Spill>(disk: &mut D) -> Failed
    ensures later { D.fault_count disk.old ≤ D.fault_count disk.new }
    ensures rose { Rose (D.fault_count disk.old) (D.fault_count disk.new) }
    ensures stand { BothTold (D.told disk.old) (D.told disk.new) AllStand }
{
    'asks: loop {
        match disk.fresh() {
            Ok(block) => disk.free(block),
            Err(fault) => return fault,
        }
    }
}
