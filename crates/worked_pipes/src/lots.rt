ghost use Rattle.std.specs.Prelude.{◌≡◌, ◌+◌, ◌<◌, ◌≤◌, None, OnOk, length};
ghost use Rattle.lot_store.specs.LotCalls.{IsSupplied, Reads, Writes};
ghost use Rattle.lot_store.specs.Lots.{IsRewound, held};
ghost use Rattle.worked_lots.specs.Worked.{CanRewind, ReadsOn};

use flow_outside::failure::StreamFault;
use flow_outside::spill::Spill;
use lot_store::lot::Lot;
use paged_view::record_ref::RecordRef;
use paged_view::stream::RecordStream;
use segment_core::Purse;
use span_bytes::span::Span;

/// Adds so many records: those of the list, over and over. Each has at most 4,000 bytes; a longer one is passed over.
pub(crate) fn fill<D: Spill>(
    lot: &mut Lot,
    records: &[&[u8]],
    count: usize,
    purse: &mut Purse,
    disk: &mut D,
) -> Result<(), StreamFault>
    requires some { 0 < length records.now }
    requires untold { D.told disk.old ≡ None }
    requires room { length purse.old.pages + length (held lot.old) ≤ purse.old.room }
    requires supply { IsSupplied purse.old lot.old }
    ensures { Writes (D.told disk.old) (D.told disk.new) purse.old purse.new lot.old lot.new }
{
    let mut number = 0;
    'rows: while number < count {
        match add(lot, records[number % records.len()], purse, disk) {
            Ok(()) => number += 1,
            Err(fault) => return Err(fault),
        }
    }
    Ok(())
}

fn add<D: Spill>(
    lot: &mut Lot,
    record: &[u8],
    purse: &mut Purse,
    disk: &mut D,
) -> Result<(), StreamFault>
    requires untold { D.told disk.old ≡ None }
    requires room { length purse.old.pages + length (held lot.old) ≤ purse.old.room }
    requires supply { IsSupplied purse.old lot.old }
    ensures supply { OnOk result (IsSupplied purse.new lot.new) }
    ensures writes { Writes (D.told disk.old) (D.told disk.new) purse.old purse.new lot.old lot.new }
{
    if record.len() > 4_000 {
        return Ok(());
    }
    lot.append(&record, purse, disk)
}

/// How many records a lot gave: those that are the list's, over and over, and the others.
#[derive(Clone, Copy, Debug, PartialEq, Eq)]
pub(crate) struct Given {
    pub same: usize,
    pub others: usize,
}

/// Reads the lot to its end.
pub(crate) fn read<D: Spill>(
    lot: &mut Lot,
    records: &[&[u8]],
    disk: &mut D,
) -> Result<Given, StreamFault>
    requires ready { IsRewound lot.old }
    requires untold { D.told disk.old ≡ None }
    ensures { ReadsOn (D.told disk.old) (D.told disk.new) lot.old lot.new }
{
    let mut given = Given { same: 0, others: 0 };
    'records: loop {
        match lot.read_next(disk) {
            Ok(true) => given = counted(given, RecordStream::<D>::head(lot), records),
            Ok(false) => return Ok(given),
            Err(fault) => return Err(fault),
        }
    }
}

/// With one record more.
fn counted(given: Given, shown: Option<RecordRef<'_>>, records: &[&[u8]]) -> Given {
    match shown {
        Some(record) if is_next(&record, given.same, records) => Given {
            same: given.same.saturating_add(1),
            others: given.others,
        },
        _ => Given {
            same: given.same,
            others: given.others.saturating_add(1),
        },
    }
}

/// Whether a record is the list's next, which begins again behind its last.
fn is_next(record: &RecordRef<'_>, number: usize, records: &[&[u8]]) -> bool {
    let count = records.len();
    count > 0 && is_same(record, records[number % count])
}

fn is_same(record: &RecordRef<'_>, bytes: &[u8]) -> bool {
    let len = record.len();
    if len != bytes.len() {
        return false;
    }
    for i in 0..len {
        if record.at(i) != bytes[i] {
            return false;
        }
    }
    true
}

/// Reads the lot from its first record on.
pub(crate) fn read_all<D: Spill>(
    lot: &mut Lot,
    records: &[&[u8]],
    purse: &mut Purse,
    disk: &mut D,
) -> Result<Given, StreamFault>
    requires untold { D.told disk.old ≡ None }
    requires room { length purse.old.pages + length (held lot.old) ≤ purse.old.room }
    requires supply { CanRewind lot.old purse.old }
    ensures { Reads (D.told disk.old) (D.told disk.new) purse.old purse.new lot.old lot.new }
{
    let _begun = lot.rewind(purse, disk);
    read(lot, records, disk)
}
