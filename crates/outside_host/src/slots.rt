ghost use Rattle.std.specs.Prelude.{◌≡◌, ◌≢◌, ℕ, IfOk, Some, ◌+◌, ◌<◌, ◌≤◌, Option, None, IfSome, MatchOption, length, vec_len, string_bytes, slice_index_or};
ghost use Rattle.flow_outside.specs.Readers.{OthersStand, Starts, GoesOn, LosesPlace};
ghost use Rattle.flow_outside.specs.Slots.{living_in};
ghost use Rattle.outside_host.specs.Slots.{reading_of, readers_in};

use flow_outside::failure::Memory;
use flow_outside::slots::{READERS, free_number};
use std::alloc::Global;
use std::fs::{File, Files};
use std::io::Read;

/// Slots for as many readers as may live, none of which does.
pub(crate) fn no_readers<F: Drop>(alloc: Global) -> Result<Vec<Option<(String, F)>>, Memory>
    ensures len { IfOk result (λ slots. vec_len slots ≡ READERS) }
    ensures none { IfOk result (λ slots. (id : ℕ) → slice_index_or slots.items id None ≡ None) }
    ensures living { IfOk result (λ slots. living_in slots.items ≡ 0) }
{
    let mut slots = Vec::with_capacity(alloc, READERS)?;
    for number in 0..READERS {
        slots.push(None)?;
    }
    Ok(slots)
}

/// Opens the file of this name. None where it can't be opened, and where memory for its name is
/// wanting.
pub(crate) fn open_named<R: Files>(rt: &R, alloc: Global, name: &str) -> Option<(String, R::File)>
    ensures { IfSome result (λ file. string_bytes file.0 ≡ name.now) }
{
    let file = File::open(rt, name).ok()?;
    let name = String::from_str(alloc, name).ok()?;
    Some((name, file))
}

/// Starts a reader for a file, and gives its number.
pub(crate) fn start<F: Drop>(slots: &mut Vec<Option<(String, F)>>, name: String, file: F) -> u32
    requires reserved { vec_len slots.old ≡ READERS }
    requires room { living_in slots.old.items < READERS }
    ensures len { vec_len slots.new ≡ vec_len slots.old }
    ensures started { Starts (readers_in slots.old.items) (readers_in slots.new.items) (string_bytes name) None result }
    ensures living { living_in slots.new.items ≡ living_in slots.old.items + 1 }
{
    let id = free_number(slots);
    slots[id] = Some((name, file));
    id as u32
}

/// Reads the next bytes of a living reader, and ends it at an answer of 0. None where the file
/// can't be read.
fn read_open<F: Read + Drop>(slot: &mut Option<(String, F)>, into: &mut [u8]) -> Option<usize>
    requires { slot.old ≢ None }
    ensures within { IfSome result (λ count. count ≤ length into.old) }
    ensures ended { result ≡ Some 0 → slot.new ≡ None }
    ensures lives { result ≢ Some 0 → reading_of slot.new ≡ reading_of slot.old }
{
    let answer = match slot {
        Some((_, file)) => file.read(into).ok(),
        None => unreachable!(),
    };
    if answer == Some(0) {
        *slot = None;
    }
    answer
}

/// Reads the next bytes of reader `id`, and ends it at an answer of 0. None where the file can't be
/// read.
pub(crate) fn read_slot<F: Read + Drop>(
    slots: &mut Vec<Option<(String, F)>>,
    id: u32,
    into: &mut [u8],
) -> Option<usize>
    requires { slice_index_or slots.old.items id None ≢ None }
    ensures len { vec_len slots.new ≡ vec_len slots.old }
    ensures within { IfSome result (λ count. count ≤ length into.old) }
    ensures others { OthersStand (readers_in slots.old.items) (readers_in slots.new.items) id }
    ensures goes_on { let old = readers_in slots.old.items id in let new = readers_in slots.new.items id in
        MatchOption result
        (LosesPlace old new × (living_in slots.new.items ≡ living_in slots.old.items))
        (GoesOn old new (living_in slots.old.items) (living_in slots.new.items)) }
{
    read_open(&mut slots[id as usize], into)
}
