ghost use Rattle.std.specs.Prelude.{◌≡◌, ◌≤◌, None};

use crate::spill_file::{make_file, read_block, write_block};
use flow_outside::failure::{Failed, count_fault};
use flow_outside::spill::Spill;
use std::alloc::Global;
use std::fs;
use std::fs::Files;
use std::os::unix::fs::FileExt;

/// How many blocks a disk gives in its life.
const BLOCKS: u64 = 1 << 44;

/// A disk that is one file. It tells nothing of its bytes.
///
/// The file is made at the first `put`, over what stood under its name, and removed when the disk is
/// let go. A block is read and written at its place, which no other call moves. A block that was freed
/// is given again, unless memory to remember it was wanting.
pub struct FileSpill<'a, R: Files> {
    rt: &'a R,
    name: String,
    file: Option<R::File>,
    /// The blocks that were freed.
    freed: Vec<u64>,
    /// How many blocks the file has.
    blocks: u64,
    given: u64,
    faults: u64,
    ghost within: { blocks ≤ given },
}

impl<'a, R: Files> Drop for FileSpill<'a, R> {
    fn drop(self) {
        let FileSpill {
            rt,
            name,
            file,
            freed: _,
            blocks: _,
            given: _,
            faults: _,
        } = self;
        if let Some(_open) = file {
            let _removed = fs::remove_file(rt, name.as_str());
        }
    }
}

impl<'a, R: Files> FileSpill<'a, R>
where
    R::File: FileExt,
{
    /// A disk that has given no block, and makes the file of this name at its first `put`.
    pub fn new(rt: &'a R, alloc: Global, name: String) -> FileSpill<'a, R>
        ensures tells { ⟦<FileSpill<'a, R> as Spill>⟧.told result ≡ None }
        ensures given { ⟦<FileSpill<'a, R> as Spill>⟧.given result ≡ 0 }
        ensures no_fault { ⟦<FileSpill<'a, R> as Spill>⟧.fault_count result ≡ 0 }
    {
        FileSpill {
            rt,
            name,
            file: None,
            freed: Vec::new(alloc),
            blocks: 0,
            given: 0,
            faults: 0,
        }
    }
}

impl<'a, R: Files> Spill for FileSpill<'a, R>
where
    R::File: FileExt,
{
    ghost told = { λ _. None };

    ghost fault_count = { λ disk. disk.faults };

    ghost given = { λ disk. disk.given };

    fn fresh(&mut self) -> Result<u64, Failed> {
        if self.given >= BLOCKS {
            return Err(count_fault(&mut self.faults));
        }
        self.given += 1;
        match self.freed.pop() {
            Some(block) => Ok(block),
            None => {
                self.blocks += 1;
                Ok(self.blocks)
            }
        }
    }

    fn put(&mut self, block: u64, page: &[u8]) -> Result<(), Failed> {
        if self.file.is_none() {
            self.file = make_file(self.rt, self.name.as_str());
        }
        let written = match &self.file {
            Some(file) => write_block(file, block, page),
            None => false,
        };
        if written {
            return Ok(());
        }
        Err(count_fault(&mut self.faults))
    }

    fn get(&mut self, block: u64, page: &mut [u8]) -> Result<(), Failed> {
        let read = match &self.file {
            Some(file) => read_block(file, block, page),
            None => false,
        };
        if read {
            return Ok(());
        }
        Err(count_fault(&mut self.faults))
    }

    fn free(&mut self, block: u64) {
        let _kept = self.freed.push(block);
    }

    fn faults(&self) -> u64 {
        self.faults
    }
}
