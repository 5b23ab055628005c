ghost use Rattle.std.specs.Prelude.{◌≡◌, ◌<◌, ◌≤◌, IfOk, OnOk, OnErr, Some, None, length};
ghost use Rattle.flow_outside.specs.Blocks.{BothTold};
ghost use Rattle.flow_outside.specs.Causes.{HasCause};
ghost use Rattle.flow_outside.specs.Told.{IfTold};
ghost use Rattle.spool.specs.Spilling.{HasWriteCause, IsBegun, IsLonger, IsSpilled, IsUnchanged};
ghost use Rattle.paged_view.specs.Pages.{body, used_bytes, used, IsSameSegment};
ghost use Rattle.spool.specs.Runs.{IsWritten};

use crate::writer::RunWriter;
use flow_outside::failure::{Failed, StreamFault};
use flow_outside::spill::Spill;
use segment_core::Segment;

/// Writes a page behind those that were written before, and begins the run with the first. It costs one
/// write. After a fault the spilled pages are what they were.
pub fn spill<D: Spill>(
    run: &mut Option<RunWriter>,
    disk: &mut D,
    page: &mut Segment,
) -> Result<(), StreamFault>
    requires used { (0 < used page.old) × (used page.old ≤ length (body page.old)) }
    requires stands { IfTold (D.told disk.old) (λ blocks. IsSpilled blocks (length page.old.bytes) run.old) }
    requires begun { IsBegun run.old }
    ensures cause { HasWriteCause (D.fault_count disk.old) (D.fault_count disk.new) result }
    ensures page { IsSameSegment page.old page.new × (used_bytes page.new ≡ used_bytes page.old) }
    ensures longer { OnOk result (BothTold (D.told disk.old) (D.told disk.new)
        (IsLonger (length page.old.bytes) run.old run.new page.new.bytes)) }
    ensures refused { OnErr result (BothTold (D.told disk.old) (D.told disk.new)
        (IsUnchanged (length page.old.bytes) run.old run.new)) }
    ensures begun { IsBegun run.new }
{
    match run.take() {
        Some(writer) => push_behind(run, writer, disk, page),
        None => push_first(run, disk, page),
    }
}

// Pushes a page behind those of a writer, which goes back to its place.
fn push_behind<D: Spill>(
    run: &mut Option<RunWriter>,
    writer: RunWriter,
    disk: &mut D,
    page: &mut Segment,
) -> Result<(), StreamFault>
    requires some { 0 < used page.old }
    requires within { used page.old ≤ length (body page.old) }
    requires stands { IfTold (D.told disk.old) (λ blocks. IsWritten blocks (length page.old.bytes) writer) }
    requires begun { 0 < writer.pages }
    ensures cause { HasWriteCause (D.fault_count disk.old) (D.fault_count disk.new) result }
    ensures same { IsSameSegment page.old page.new }
    ensures used_bytes { used_bytes page.new ≡ used_bytes page.old }
    ensures longer { OnOk result (BothTold (D.told disk.old) (D.told disk.new)
        (IsLonger (length page.old.bytes) (Some writer) run.new page.new.bytes)) }
    ensures refused { OnErr result (BothTold (D.told disk.old) (D.told disk.new)
        (IsUnchanged (length page.old.bytes) (Some writer) run.new)) }
    ensures begun { IsBegun run.new }
{
    let mut writer = writer;
    match writer.push(disk, page) {
        Ok(()) => {
            *run = Some(writer);
            Ok(())
        }
        Err(_) => {
            *run = Some(writer);
            Err(StreamFault::Spill)
        }
    }
}

// Begins the run with a page.
fn push_first<D: Spill>(
    run: &mut Option<RunWriter>,
    disk: &mut D,
    page: &mut Segment,
) -> Result<(), StreamFault>
    requires some { 0 < used page.old }
    requires within { used page.old ≤ length (body page.old) }
    requires none { run.old ≡ None }
    ensures cause { HasWriteCause (D.fault_count disk.old) (D.fault_count disk.new) result }
    ensures same { IsSameSegment page.old page.new }
    ensures used_bytes { used_bytes page.new ≡ used_bytes page.old }
    ensures longer { OnOk result (BothTold (D.told disk.old) (D.told disk.new)
        (IsLonger (length page.old.bytes) None run.new page.new.bytes)) }
    ensures refused { OnErr result (BothTold (D.told disk.old) (D.told disk.new)
        (IsUnchanged (length page.old.bytes) None run.new)) }
    ensures begun { IsBegun run.new }
{
    match begin(disk, page) {
        Ok(writer) => {
            *run = Some(writer);
            Ok(())
        }
        Err(_) => Err(StreamFault::Spill),
    }
}

// A writer with one page. After `Failed` the block that it took isn't live any more.
fn begin<D: Spill>(disk: &mut D, page: &mut Segment) -> Result<RunWriter, Failed>
    requires some { 0 < used page.old }
    requires within { used page.old ≤ length (body page.old) }
    ensures cause { HasCause (D.fault_count disk.old) (D.fault_count disk.new) result }
    ensures same { IsSameSegment page.old page.new }
    ensures used_bytes { used_bytes page.new ≡ used_bytes page.old }
    ensures longer { IfOk result (λ writer. BothTold (D.told disk.old) (D.told disk.new)
        (IsLonger (length page.old.bytes) None (Some writer) page.new.bytes)) }
    ensures refused { OnErr result (BothTold (D.told disk.old) (D.told disk.new)
        (IsUnchanged (length page.old.bytes) None None)) }
    ensures begun { IfOk result (λ writer. 0 < writer.pages) }
{
    let mut writer = RunWriter::start(disk)?;
    match writer.push(disk, page) {
        Ok(()) => Ok(writer),
        Err(fault) => {
            disk.free(writer.close().first);
            Err(fault)
        }
    }
}
