ghost use Rattle.std.specs.Prelude.{◌≡◌, ℕ, List, None, IfOk, vec_len};
ghost use Rattle.flow_outside.specs.Slots.{living_in};
ghost use Rattle.outside_host.specs.Slots.{readers_in};

use crate::slots::{no_readers, open_named, read_slot, start};
use flow_outside::failure::{Failed, Memory, count_fault};
use flow_outside::shelf::Shelf;
use std::alloc::Global;
use std::fs::Files;

/// Real files. They tell nothing of their bytes, and one count of faults serves every name.
#[derive(Drop)]
pub struct FileShelf<'a, R: Files> {
    rt: &'a R,
    alloc: Global,
    slots: Vec<Option<(String, R::File)>>,
    faults: u64,
    ghost reserved: { vec_len slots ≡ 80 },
}

impl<'a, R: Files + Drop> FileShelf<'a, R> {
    /// The files that `rt` reaches. No reader lives, and there was no fault.
    pub fn new(rt: &'a R, alloc: Global) -> Result<FileShelf<'a, R>, Memory>
        ensures none_lives { IfOk result (λ shelf. (id : ℕ) → ⟦<FileShelf<'a, R> as Shelf>⟧.readers shelf id ≡ None) }
        ensures living { IfOk result (λ shelf. ⟦<FileShelf<'a, R> as Shelf>⟧.living shelf ≡ 0) }
        ensures no_fault { IfOk result (λ shelf. (name : List ℕ) → ⟦<FileShelf<'a, R> as Shelf>⟧.faults_at shelf name ≡ 0) }
    {
        Ok(FileShelf {
            rt,
            alloc,
            slots: no_readers(alloc)?,
            faults: 0,
        })
    }
}

impl<'a, R: Files + Drop> Shelf for FileShelf<'a, R> {
    ghost told = { λ _. None };

    ghost readers = { λ shelf. readers_in shelf.slots.items };

    ghost living = { λ shelf. living_in shelf.slots.items };

    ghost faults_at = { λ shelf _. shelf.faults };

    fn open(&mut self, name: &str) -> Result<u32, Failed> {
        match open_named(self.rt, self.alloc, name) {
            Some((name, file)) => Ok(start(&mut self.slots, name, file)),
            None => Err(count_fault(&mut self.faults)),
        }
    }

    fn read(&mut self, id: u32, into: &mut [u8]) -> Result<usize, Failed> {
        match read_slot(&mut self.slots, id, into) {
            Some(count) => Ok(count),
            None => Err(count_fault(&mut self.faults)),
        }
    }

    fn faults(&self, _name: &str) -> u64 {
        self.faults
    }
}
