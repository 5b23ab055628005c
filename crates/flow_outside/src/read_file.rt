ghost use Rattle.std.specs.Prelude.{◌≡◌, ℕ, ◌<◌, ◌≤◌, List, Err, IfOk, OnOk, OnErr, length};
ghost use Rattle.flow_outside.specs.Causes.{Rose};
ghost use Rattle.flow_outside.specs.Files.{IfFileTold, ReadsAll, LeavesAtMostOne};

use crate::failure::Failed;
use crate::shelf::Shelf;
use std::alloc::{AllocError, Global};
use thiserror::Error;

/// How many bytes are read at once, at most.
const PIECE: usize = 8192;

/// Why a file isn't read whole.
#[derive(Clone, Copy, Debug, PartialEq, Eq, Error)]
pub enum FileFault {
    /// The shelf failed: its count at the file's name rose in this call.
    #[error("the file can't be read")]
    Read,
    /// Want of memory.
    #[error("out of memory")]
    Memory,
    /// The file has more bytes than the limit.
    #[error("the file is too long")]
    TooLong,
}

impl From<Failed> for FileFault {
    ghost use Rattle.flow_outside.specs.declared.read_file.FileFault.TheVariants as fault;

    ghost from_gives = { λ _ made. made ≡ fault.Read };

    fn from(_failed: Failed) -> FileFault {
        FileFault::Read
    }
}

impl From<AllocError> for FileFault {
    ghost use Rattle.flow_outside.specs.declared.read_file.FileFault.TheVariants as fault;

    ghost from_gives = { λ _ made. made ≡ fault.Memory };

    fn from(_refused: AllocError) -> FileFault {
        FileFault::Memory
    }
}

/// Reads the file `name` from its first byte to its end. A file of more than `limit` bytes is given
/// up once more than `limit` bytes were read; at most one piece is read past the limit. A failed
/// read is never taken for the end.
///
/// Where the shelf tells that no file has the name, the answer is `Read`, or want of memory: `whole` and
/// `too_long` both say that the file is there.
///
/// The time is proportional to the bytes that are read.
pub fn read_file<S: Shelf>(
    shelf: &mut S,
    alloc: Global,
    name: &str,
    limit: usize,
) -> Result<Vec<u8>, FileFault>
    requires { S.living shelf.old < 80 }
    ensures tells { S.told shelf.new ≡ S.told shelf.old }
    ensures later { (k : List ℕ) → S.faults_at shelf.old k ≤ S.faults_at shelf.new k }
    ensures whole { IfOk result (λ bytes. ReadsAll (S.told shelf.old) name.now limit bytes.items) }
    ensures ended { OnOk result
        ((S.readers shelf.new ≡ S.readers shelf.old) × (S.living shelf.new ≡ S.living shelf.old)) }
    ensures left { OnErr result (LeavesAtMostOne (S.readers shelf.old) (S.readers shelf.new)
        (S.living shelf.old) (S.living shelf.new)) }
    ensures cause { result ≡ Err FileFault.Read
        → Rose (S.faults_at shelf.old name.now) (S.faults_at shelf.new name.now) }
    ensures too_long { result ≡ Err FileFault.TooLong
        → IfFileTold (S.told shelf.old) name.now (λ all. limit < length all) }
{
    let mut piece = vec![in alloc; 0u8; PIECE]?;
    let mut bytes = Vec::new(alloc);
    let id = shelf.open(name)?;
    'pieces: while bytes.len() <= limit {
        let count = shelf.read(id, &mut piece)?;
        if count == 0 {
            return Ok(bytes);
        }
        bytes.extend_from_slice(&piece[..count])?;
    }
    Err(FileFault::TooLong)
}
