ghost use Rattle.std.specs.Prelude.{◌≡◌, ℕ, ◌+◌, ◌<◌, ◌≤◌, true, IfSome, IsErrOf, OnOk, length};
ghost use Rattle.flow_outside.specs.Blocks.{BothTold};
ghost use Rattle.flow_outside.specs.Causes.{HasStreamCause};
ghost use Rattle.flow_outside.specs.Told.{IfTold};
ghost use Rattle.flow_types.specs.Records.{IsRecord};
ghost use Rattle.flow_model.specs.Env.{Tuples};
ghost use Rattle.lot_store.specs.LotCalls.{Writes};
ghost use Rattle.lot_store.specs.LotKeeping.{KeepsRows};
ghost use Rattle.lot_store.specs.Lots.{IsRewound, held};
ghost use Rattle.spool.specs.Spilling.{HasWriteCause};
ghost use Rattle.lot_store.specs.Storage.{IsReady, pair};
ghost use Rattle.page_feed.specs.Feeds.{lent};
ghost use Rattle.row_pipe.specs.Pipes.{CanAdd, GivesAll, GivesRows, GivesShown, HasPassCause, HasPlaces, HoldsWhatFits, LeavesTuples, MayPass, Passes, RestsAfter, ShowsTuple};
ghost use Rattle.spool.specs.Ios.{HasSameParts};

use crate::row_pipe::RowPipe;
use expr_core::scratch::Scratch;
use flow_outside::failure::StreamFault;
use flow_outside::spill::Spill;
use lot_store::lot::Lot;
use paged_view::stream::RecordStream;
use record_codec::check::check_bytes;
use segment_core::Purse;
use spool::io::Io;

/// Adds the rows that are given of a lot's rows behind those of another. For a union it is called once for each
/// input. Both lots are at rest afterwards, the one that is read whatever the answer.
///
/// `Spill` comes only where the disk's count of faults rose in this call, `Damaged` only over a disk that doesn't
/// tell: where a page isn't the one that was put, or a record isn't that of a row; it has the block that was read
/// last. What the other lot stands for is then open. Each row is read once where it lies, and each record that is
/// given is copied once; no memory is taken.
pub fn pipe<D: Spill>(
    p: &RowPipe,
    input: &mut Lot,
    out: &mut Lot,
    s: &mut Scratch,
    io: &mut Io<'_, D>,
) -> Result<(), StreamFault>
    requires may { MayPass input.old out.old io.old.purse.now }
    requires holds { IfTold (D.told io.old.disk.now)
        (HoldsWhatFits p.now.takes p.now.work input.old out.old io.old.purse.now.pages) }
    ensures rows { OnOk result (BothTold (D.told io.old.disk.now) (D.told io.new.disk.now)
        (GivesRows p.now.takes p.now.work input.old out.old out.new)) }
    ensures preserves { Passes (D.told io.old.disk.now) (D.told io.new.disk.now)
        input.old input.new out.old out.new io.old.purse.now io.new.purse.now }
    ensures cause { HasPassCause (D.fault_count io.old.disk.now) (D.fault_count io.new.disk.now)
        (D.told io.old.disk.now) input.new result }
    ensures rests { RestsAfter input.new out.new result }
    ensures lent { HasSameParts io.old io.new }
{
    pass_and_rest(p, input, out, s, io.purse, io.disk)
}

/// The same, of a purse and a disk.
fn pass_and_rest<D: Spill>(
    p: &RowPipe,
    input: &mut Lot,
    out: &mut Lot,
    s: &mut Scratch,
    purse: &mut Purse,
    disk: &mut D,
) -> Result<(), StreamFault>
    requires may { MayPass input.old out.old purse.old }
    requires holds { IfTold (D.told disk.old)
        (HoldsWhatFits p.now.takes p.now.work input.old out.old purse.old.pages) }
    ensures rows { OnOk result (BothTold (D.told disk.old) (D.told disk.new)
        (GivesRows p.now.takes p.now.work input.old out.old out.new)) }
    ensures preserves { Passes (D.told disk.old) (D.told disk.new)
        input.old input.new out.old out.new purse.old purse.new }
    ensures cause { HasStreamCause (D.fault_count disk.old) (D.fault_count disk.new) (D.told disk.old) result }
    ensures damaged { (block : ℕ) → IsErrOf result (StreamFault.Damaged block) → block ≡ input.new.read_last }
    ensures read { length (held input.new) ≤ input.new.stored.room }
    ensures written { OnOk result (length (held out.new) ≤ out.new.stored.room) }
{
    match input.rewind(purse, disk) {
        Ok(()) => {
            match pass_all(p, input, out, s, purse, disk) {
                Ok(()) => rest_both(input, out, purse, disk),
                Err(fault) => match input.rest(purse, disk) {
                    Ok(()) => Err(fault),
                    Err(at_rest) => Err(at_rest),
                },
            }
        }
        Err(fault) => Err(fault),
    }
}

/// Brings both lots to rest, the one that was read first.
fn rest_both<D: Spill>(
    input: &mut Lot,
    out: &mut Lot,
    purse: &mut Purse,
    disk: &mut D,
) -> Result<(), StreamFault>
    requires fits { length (held input.old) ≤ input.old.stored.room + length (lent input.old.feed) }
    requires ready { IsReady (pair (D.told disk.old) purse.old input.old out.old) }
    ensures cause { HasWriteCause (D.fault_count disk.old) (D.fault_count disk.new) result }
    ensures preserves { Passes (D.told disk.old) (D.told disk.new)
        input.old input.new out.old out.new purse.old purse.new }
    ensures rows { OnOk result (BothTold (D.told disk.old) (D.told disk.new) (KeepsRows out.old out.new)) }
    ensures read { length (held input.new) ≤ input.new.stored.room }
    ensures written { OnOk result (length (held out.new) ≤ out.new.stored.room) }
{
    match input.rest(purse, disk) {
        Ok(()) => out.rest(purse, disk),
        Err(fault) => Err(fault),
    }
}

/// The same of a lot that was rewound; neither lot is brought to rest.
fn pass_all<D: Spill>(
    p: &RowPipe,
    input: &mut Lot,
    out: &mut Lot,
    s: &mut Scratch,
    purse: &mut Purse,
    disk: &mut D,
) -> Result<(), StreamFault>
    requires ready { IsRewound input.old }
    requires can { CanAdd (D.told disk.old) out.old purse.old }
    requires places { IfTold (D.told disk.old) (HasPlaces p.now.takes p.now.work input.old out.old purse.old.pages) }
    requires left { IfTold (D.told disk.old)
        (λ blocks. (rows : Tuples) × LeavesTuples p.now.takes blocks input.old rows) }
    ensures cause { HasStreamCause (D.fault_count disk.old) (D.fault_count disk.new) (D.told disk.old) result }
    ensures damaged { (block : ℕ) → IsErrOf result (StreamFault.Damaged block) → block ≡ input.new.read_last }
    ensures passes { Passes (D.told disk.old) (D.told disk.new) input.old input.new out.old out.new purse.old purse.new }
    ensures gives { OnOk result (BothTold (D.told disk.old) (D.told disk.new)
        (GivesAll p.now.takes p.now.work input.old out.old out.new purse.old.pages)) }
{
    'rows: loop {
        match input.read_next(disk) {
            Ok(true) => match give_head(p, input, out, s, purse, disk) {
                Ok(()) => (),
                Err(fault) => return Err(fault),
            },
            Ok(false) => return Ok(()),
            Err(fault) => return Err(fault),
        }
    }
}

/// Adds the rows that are given of the row that the lot shows.
fn give_head<D: Spill>(
    p: &RowPipe,
    input: &Lot,
    out: &mut Lot,
    s: &mut Scratch,
    purse: &mut Purse,
    disk: &mut D,
) -> Result<(), StreamFault>
    requires can { CanAdd (D.told disk.old) out.old purse.old }
    requires places { IfTold (D.told disk.old) (HasPlaces p.now.takes p.now.work input.now out.old purse.old.pages) }
    requires shown { IfTold (D.told disk.old) (λ _. ShowsTuple p.now.takes input.now) }
    ensures cause { HasStreamCause (D.fault_count disk.old) (D.fault_count disk.new) (D.told disk.old) result }
    ensures damaged { (block : ℕ) → IsErrOf result (StreamFault.Damaged block) → block ≡ input.now.read_last }
    ensures whole { OnOk result (IfSome input.now.feed.shown (IsRecord p.now.takes)) }
    ensures writes { Writes (D.told disk.old) (D.told disk.new) purse.old purse.new out.old out.new }
    ensures can { OnOk result (CanAdd (D.told disk.new) out.new purse.new) }
    ensures adds { OnOk result (BothTold (D.told disk.old) (D.told disk.new)
        (GivesShown p.now.takes p.now.work input.now out.old out.new)) }
{
    match RecordStream::<D>::head(input) {
        Some(row) => if check_bytes(&row, &p.takes) {
            p.work.give(&row, &p.takes, out, s, purse, disk)
        } else {
            Err(damaged(input))
        },
        None => Err(damaged(input)),
    }
}

fn damaged(input: &Lot) -> StreamFault
    ensures { result ≡ StreamFault.Damaged input.now.read_last }
{
    StreamFault::Damaged {
        block: input.last_block(),
    }
}
