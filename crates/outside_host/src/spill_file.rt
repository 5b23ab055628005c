ghost use Rattle.std.specs.Prelude.{◌≡◌, ℕ, ◌+◌, ◌-◌, ◌*◌, ◌<◌, IfSome};

use std::fs::{Files, OpenOptions};
use std::os::unix::fs::FileExt;

/// How many bytes a block takes in the file: those of the largest segment.
const BLOCK_SIZE: u64 = 32_768;

/// A file that is open for reading and writing. What it held is gone. None where it can't be made.
pub(crate) fn make_file<R: Files>(rt: &R, name: &str) -> Option<R::File> {
    let mut how = OpenOptions::new();
    how.read(true);
    how.write(true);
    how.create(true);
    how.truncate(true);
    how.open(rt, name).ok()
}

/// Where a block begins in the file. None for numbers that no block has. Blocks are counted from 1.
fn place_of(block: u64) -> Option<u64>
    ensures { IfSome result (λ place. place + BLOCK_SIZE ≡ block * BLOCK_SIZE) }
{
    block.checked_sub(1)?.checked_mul(BLOCK_SIZE)
}

/// Writes the page of a block. Whether it was written whole. A page longer than a block isn't.
pub(crate) fn write_block<F: FileExt>(file: &F, block: u64, page: &[u8]) -> bool {
    match place_of(block) {
        Some(place) if page.len() as u64 <= BLOCK_SIZE => file.write_all_at(page, place).is_ok(),
        _ => false,
    }
}

/// Reads the page of a block. Whether it was read whole.
pub(crate) fn read_block<F: FileExt>(file: &F, block: u64, page: &mut [u8]) -> bool {
    match place_of(block) {
        Some(place) => file.read_exact_at(page, place).is_ok(),
        None => false,
    }
}
