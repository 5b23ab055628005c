ghost use Rattle.std.specs.Prelude.{◌≡◌, ◌≢◌, ◌↔◌, ◌⊎◌, ℕ, ◌+◌, ◌<◌, ◌≤◌, List, None, Some, IfOk, OnOk, OnErr, IsErr, length, min, vec_len};
ghost use Rattle.flow_outside.specs.Causes.{HasCause};
ghost use Rattle.flow_outside.specs.Told.{IfTold};
ghost use Rattle.flow_outside.specs.Files.{bytes_of, IsAbsent};
ghost use Rattle.flow_outside.specs.Readers.{Lives, OthersStand, Starts, GivesNext, GoesOn, LosesPlace, name_of, left_of};
ghost use Rattle.outside_memory.specs.Files.{told_in};

use crate::calls::Calls;
use crate::counts::Counts;
use crate::file_name::FileName;
use crate::files::{File, copy_front, name_at, place_of, rest_of};
use crate::places::{Place, go_on, place_of_reader, start};
use flow_outside::failure::{Failed, Memory};
use flow_outside::shelf::Shelf;
use flow_outside::slots::READERS;
use std::alloc::Global;

/// Files in memory. They tell their bytes, and of an unknown name that no file has it.
///
/// The listed calls fail, and so does an `open` of an unknown name. A failed call raises the count
/// of its own name and of no other; all unknown names share one count. Of two files with one name
/// the first is read.
#[derive(Debug, Drop)]
pub struct MemShelf {
    files: Vec<File>,
    places: Vec<Option<Place>>,
    calls: Calls,
    counts: Counts,
    ghost counted: { vec_len counts.files ≡ vec_len files },
    ghost reserved: { vec_len places ≡ 80 },
}

impl MemShelf {
    /// A shelf of these files. Of its calls of `open` and `read`, counted from 1, those in `failing`
    /// fail.
    pub fn new(
        alloc: Global,
        files: Vec<(FileName, Vec<u8>)>,
        failing: Vec<u64>,
    ) -> Result<MemShelf, Memory>
        ensures tells { IfOk result (λ shelf. ⟦<MemShelf as Shelf>⟧.told shelf ≡ Some (told_in files.items)) }
        ensures none_lives { IfOk result (λ shelf. (id : ℕ) → ⟦<MemShelf as Shelf>⟧.readers shelf id ≡ None) }
        ensures living { IfOk result (λ shelf. ⟦<MemShelf as Shelf>⟧.living shelf ≡ 0) }
        ensures no_fault { IfOk result (λ shelf. (name : List ℕ) → ⟦<MemShelf as Shelf>⟧.faults_at shelf name ≡ 0) }
        ensures calls { IfOk result (λ shelf. (shelf.calls.made ≡ 0) × (shelf.calls.failing ≡ failing)) }
    {
        let counts = Counts::new(alloc, files.len())?;
        let places = vec![in alloc; None; READERS]?;
        Ok(MemShelf {
            files,
            places,
            calls: Calls::new(failing),
            counts,
        })
    }
}

impl Shelf for MemShelf {
    ghost use Rattle.outside_memory.specs.Calls.{HasCalled, NextFails};
    ghost use Rattle.outside_memory.specs.Shelf.{told_by, readers_of, living_of, faults_of, place_in};

    ghost told = { told_by };

    ghost readers = { readers_of };

    ghost living = { living_of };

    ghost faults_at = { faults_of };

    fn open(&mut self, name: &str) -> Result<u32, Failed>
        requires { living_of self.old < 80 }
        ensures tells { told_by self.new ≡ told_by self.old }
        ensures later { (k : List ℕ) → faults_of self.old k ≤ faults_of self.new k }
        ensures cause { HasCause (faults_of self.old name.now) (faults_of self.new name.now) result }
        ensures started { IfOk result
            (λ id. Starts (readers_of self.old) (readers_of self.new) name.now (bytes_of (told_by self.old) name.now) id
            × (living_of self.new ≡ living_of self.old + 1)) }
        ensures absent { OnOk result (¬ IsAbsent (told_by self.old) name.now) }
        ensures refused { OnErr result
            ((readers_of self.new ≡ readers_of self.old) × (living_of self.new ≡ living_of self.old)) }
        ensures called { HasCalled self.old.calls self.new.calls }
        ensures fails { IsErr result ↔ (NextFails self.old.calls ⊎ (place_in self.old name.now ≡ None)) }
        ensures apart { (other : List ℕ) → place_in self.old other ≢ place_in self.old name.now
            → faults_of self.new other ≡ faults_of self.old other }
    {
        let fails = self.calls.next_fails();
        let place = place_of(&self.files, name);
        match place {
            Some(file) if !fails => Ok(start(&mut self.places, file)),
            _ => {
                self.counts.raise(place);
                Err(Failed)
            }
        }
    }

    fn read(&mut self, id: u32, into: &mut [u8]) -> Result<usize, Failed>
        requires lives { Lives (readers_of self.old) id }
        requires room { 0 < length into.old }
        ensures tells { told_by self.new ≡ told_by self.old }
        ensures later { (k : List ℕ) → faults_of self.old k ≤ faults_of self.new k }
        ensures cause { let name = name_of (readers_of self.old id) in
            HasCause (faults_of self.old name) (faults_of self.new name) result }
        ensures others { OthersStand (readers_of self.old) (readers_of self.new) id }
        ensures within { IfOk result (λ count. count ≤ length into.old) }
        ensures given { IfOk result
            (λ count. IfTold (left_of (readers_of self.old id)) (λ rest. GivesNext rest into.new count)) }
        ensures goes_on { IfOk result
            (λ count. GoesOn (readers_of self.old id) (readers_of self.new id) (living_of self.old) (living_of self.new) count) }
        ensures refused { OnErr result (LosesPlace (readers_of self.old id) (readers_of self.new id)
            × (living_of self.new ≡ living_of self.old)) }
        ensures called { HasCalled self.old.calls self.new.calls }
        ensures fails { IsErr result ↔ NextFails self.old.calls }
        ensures most { IfOk result (λ count. IfTold (left_of (readers_of self.old id))
            (λ rest. count ≡ min (length rest) (length into.old))) }
        ensures apart { (other : List ℕ)
            → place_in self.old other ≢ place_in self.old (name_of (readers_of self.old id))
            → faults_of self.new other ≡ faults_of self.old other }
    {
        let place = place_of_reader(&self.places, id);
        if self.calls.next_fails() {
            let file = place_of(&self.files, name_at(&self.files, place.file));
            self.counts.raise(file);
            return Err(Failed);
        }
        let count = copy_front(rest_of(&self.files, place), into);
        go_on(&mut self.places, id, place, count);
        Ok(count)
    }

    fn faults(&self, name: &str) -> u64 {
        self.counts.at(place_of(&self.files, name))
    }
}
