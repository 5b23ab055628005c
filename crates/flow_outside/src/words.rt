ghost use Rattle.std.specs.Prelude.{◌≡◌, ◌<◌, [], ◌∷◌, ◌++◌, OnOk, OnErr, length};
ghost use Rattle.std.specs.List.{slice_index_or};

use crate::failure::Memory;
use std::alloc::Global;
use std::marker::Model;

/// The words of a command line, in their order.
#[derive(Debug, Drop)]
pub struct Words {
    alloc: Global,
    strings: Vec<String>,
}

impl Model for Words {
    ghost use Rattle.std.specs.Prelude.{ℕ, List};

    ghost Value = { List (List ℕ) };

    ghost use Rattle.flow_outside.specs.Words.{texts};

    ghost view = { texts };
}

impl Words {
    /// No words.
    pub fn new(alloc: Global) -> Words
        ensures { result ≡ [] }
    {
        Words {
            alloc,
            strings: Vec::new(alloc),
        }
    }

    /// Adds a word at the end. Where memory is wanting, nothing changes.
    pub fn push(&mut self, word: &str) -> Result<(), Memory>
        ensures pushed { OnOk result (self.new ≡ self.old ++ word.now ∷ []) }
        ensures refused { OnErr result (self.new ≡ self.old) }
    {
        let owned = String::from_str(self.alloc, word)?;
        self.strings.push(owned)?;
        Ok(())
    }

    /// How many words there are.
    pub fn len(&self) -> usize
        ensures { result ≡ length self.now }
    {
        self.strings.len()
    }

    /// The word at a place, counted from 0.
    pub fn at(&self, i: usize) -> &str
        requires { i < length self.now }
        ensures { result.now ≡ slice_index_or self.now i [] }
    {
        self.strings[i].as_str()
    }
}
