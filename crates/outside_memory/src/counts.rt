ghost use Rattle.std.specs.Prelude.{◌≡◌, ◌≢◌, ℕ, ◌<◌, ◌≤◌, Option, IfSome, IfOk, vec_len};
ghost use Rattle.flow_outside.specs.Causes.{Rose};
ghost use Rattle.outside_memory.specs.Counts.{count_in};

use flow_outside::failure::Memory;
use std::alloc::Global;

/// The counts of faults: one for each file, and one for all unknown names.
#[derive(Debug, Drop)]
pub(crate) struct Counts {
    files: Vec<u64>,
    unknown: u64,
}

impl Counts {
    /// No fault at any of this number of files.
    pub(crate) fn new(alloc: Global, files: usize) -> Result<Counts, Memory>
        ensures none { IfOk result (λ counts. (place : Option ℕ) → count_in counts.files.items counts.unknown place ≡ 0) }
        ensures len { IfOk result (λ counts. vec_len counts.files ≡ files) }
    {
        Ok(Counts {
            files: vec![in alloc; 0u64; files]?,
            unknown: 0,
        })
    }

    /// The count at a file, or that of all unknown names.
    pub(crate) fn at(&self, place: Option<usize>) -> u64
        requires { IfSome place (λ file. file < vec_len self.now.files) }
        ensures { result ≡ count_in self.now.files.items self.now.unknown place }
    {
        match place {
            Some(file) => self.files[file],
            None => self.unknown,
        }
    }

    /// Counts one more fault at a file, or at an unknown name, and none elsewhere.
    pub(crate) fn raise(&mut self, place: Option<usize>)
        requires { IfSome place (λ file. file < vec_len self.old.files) }
        ensures len { vec_len self.new.files ≡ vec_len self.old.files }
        ensures rose { Rose (count_in self.old.files.items self.old.unknown place)
            (count_in self.new.files.items self.new.unknown place) }
        ensures later { (other : Option ℕ) → count_in self.old.files.items self.old.unknown other
            ≤ count_in self.new.files.items self.new.unknown other }
        ensures apart { (other : Option ℕ) → other ≢ place
            → count_in self.new.files.items self.new.unknown other ≡ count_in self.old.files.items self.old.unknown other }
    {
        match place {
            Some(file) => self.files[file] = self.files[file].saturating_add(1),
            None => self.unknown = self.unknown.saturating_add(1),
        }
    }
}
