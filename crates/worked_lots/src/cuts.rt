ghost use Rattle.std.specs.Prelude.{◌≡◌, ℕ, ◌+◌, ◌<◌, ◌≤◌, None, length};
ghost use Rattle.lot_store.specs.LotCalls.{Writes};
ghost use Rattle.lot_store.specs.Lots.{empty, held};
ghost use Rattle.segment_core.specs.Segments.{segment_sum};
ghost use Rattle.paged_view.specs.Pages.{IsSameSegment};

use crate::lots::rest_and_read;
use flow_outside::failure::StreamFault;
use flow_outside::spill::Spill;
use lot_store::lot::Lot;
use segment_core::{Purse, Segment};

/// Makes these the used bytes of a page.
fn fill_page(page: &mut Segment, used_bytes: &[u8])
    requires { length used_bytes.now ≤ 4000 }
    ensures { IsSameSegment page.old page.new }
{
    let _len = page.bytes().len();
    write_part(page.bytes_mut(), used_bytes);
}

/// Writes a page's number of used bytes, and these.
fn write_part(bytes: &mut [u8], used_bytes: &[u8])
    requires short { length used_bytes.now ≤ 4000 }
    requires long { 4096 ≤ length bytes.old }
{
    bytes[..4].copy_from_slice(&(used_bytes.len() as u32).to_be_bytes());
    bytes[16..16 + used_bytes.len()].copy_from_slice(used_bytes);
}

/// Adds a page with these used bytes, over a disk that doesn't tell.
fn add_page<D: Spill>(
    lot: &mut Lot,
    used_bytes: &[u8],
    purse: &mut Purse,
    disk: &mut D,
) -> Result<(), StreamFault>
    requires short { length used_bytes.now ≤ 4000 }
    requires untold { D.told disk.old ≡ None }
    requires room { length purse.old.pages + length (held lot.old) ≤ purse.old.room }
    ensures { Writes (D.told disk.old) (D.told disk.new) purse.old purse.new lot.old lot.new }
{
    match purse.take() {
        Some(page) => {
            let mut page = page;
            fill_page(&mut page, used_bytes);
            lot.append_page(page, purse, disk)
        }
        None => Ok(()),
    }
}

/// Adds the bytes of a stream by pages of `size` bytes, the last one perhaps shorter.
fn cut<D: Spill>(
    lot: &mut Lot,
    stream: &[u8],
    size: usize,
    purse: &mut Purse,
    disk: &mut D,
) -> Result<(), StreamFault>
    requires some { 0 < size }
    requires short { size ≤ 4000 }
    requires untold { D.told disk.old ≡ None }
    requires room { length purse.old.pages + length (held lot.old) ≤ purse.old.room }
    ensures { Writes (D.told disk.old) (D.told disk.new) purse.old purse.new lot.old lot.new }
{
    let mut at = 0;
    'cuts: while at < stream.len() {
        let count = (stream.len() - at).min(size);
        match add_page(lot, &stream[at..at + count], purse, disk) {
            Ok(()) => at += count,
            Err(fault) => return Err(fault),
        }
    }
    Ok(())
}

/// Adds a stream's bytes by pages, and reads all records twice, with a lot that is dropped then.
pub(crate) fn with_cuts<D: Spill>(
    lot: Lot,
    stream: &[u8],
    bytes: &[u8],
    len: usize,
    purse: &mut Purse,
    disk: &mut D,
) -> Result<usize, StreamFault>
    requires bytes { len + 251 ≤ length bytes.now }
    requires untold { D.told disk.old ≡ None }
    requires fresh { lot ≡ empty lot.stored.room 5 }
    requires room { length purse.old.pages ≤ purse.old.room }
    requires enough { lot.stored.room + 5 ≤ length purse.old.pages }
    ensures { (h : ℕ → ℕ → ℕ) → segment_sum h purse.new.pages ≡ segment_sum h purse.old.pages }
{
    let mut lot = lot;
    let answer = cut_and_read(&mut lot, stream, bytes, len, purse, disk);
    let dropped = lot.drop_lot(purse, disk);
    lot.end();
    match dropped {
        Ok(()) => answer,
        Err(fault) => Err(fault),
    }
}

/// The same, of a lot that stays.
fn cut_and_read<D: Spill>(
    lot: &mut Lot,
    stream: &[u8],
    bytes: &[u8],
    len: usize,
    purse: &mut Purse,
    disk: &mut D,
) -> Result<usize, StreamFault>
    requires bytes { len + 251 ≤ length bytes.now }
    requires untold { D.told disk.old ≡ None }
    requires room { length purse.old.pages + length (held lot.old) ≤ purse.old.room }
    requires enough { lot.old.stored.room + lot.old.feed.reach ≤ length purse.old.pages + length (held lot.old) }
    ensures { Writes (D.told disk.old) (D.told disk.new) purse.old purse.new lot.old lot.new }
{
    match cut(lot, stream, 1_001, purse, disk) {
        Ok(()) => rest_and_read(lot, bytes, len, purse, disk),
        Err(fault) => Err(fault),
    }
}
