ghost use Rattle.std.specs.Prelude.{◌≡◌, ℕ, IsErrOf, OnOk, length};
ghost use Rattle.flow_outside.specs.Blocks.{BothTold};
ghost use Rattle.flow_outside.specs.Causes.{HasStreamCause};
ghost use Rattle.flow_outside.specs.Told.{IfTold};
ghost use Rattle.spool.specs.Changes.{IsFreed, IsPartlyFreed, ForeignBlocksUnchanged};
ghost use Rattle.paged_view.specs.Pages.{IsSameSegment};
ghost use Rattle.spool.specs.Reading.{IsDamagedAt};
ghost use Rattle.spool.specs.Runs.{IsRun};

use crate::reader::RunReader;
use crate::run::Run;
use flow_outside::failure::StreamFault;
use flow_outside::spill::Spill;
use segment_core::Segment;

/// Ends a run: it frees the blocks of its pages and the one behind them. It reads each page once, into
/// `page`, to find the next one's block.
///
/// `Spill` only where the disk's count of faults rose in this call, `Damaged` only over a disk that
/// doesn't tell, with the block whose page it is. Then each of the run's blocks is free or as it was. No other
/// block changes.
pub fn discard<D: Spill>(run: Run, disk: &mut D, page: &mut Segment) -> Result<(), StreamFault>
    requires { IfTold (D.told disk.old) (λ blocks. IsRun blocks (length page.old.bytes) run) }
    ensures cause { HasStreamCause (D.fault_count disk.old) (D.fault_count disk.new) (D.told disk.old) result }
    ensures given { D.given disk.new ≡ D.given disk.old }
    ensures same { IsSameSegment page.old page.new }
    ensures freed { OnOk result (BothTold (D.told disk.old) (D.told disk.new) (IsFreed run)) }
    ensures partly { BothTold (D.told disk.old) (D.told disk.new) (IsPartlyFreed run) }
    ensures others { BothTold (D.told disk.old) (D.told disk.new) (ForeignBlocksUnchanged run) }
    ensures damaged { (block : ℕ) → IsErrOf result (StreamFault.Damaged block) →
        IsDamagedAt run block page.new.bytes }
{
    let mut reader = RunReader::start(&run);
    'pages: loop {
        match reader.next(disk, page) {
            Ok(true) => disk.free(reader.block),
            Ok(false) => {
                disk.free(reader.at);
                return Ok(());
            }
            Err(fault) => return Err(fault),
        }
    }
}
