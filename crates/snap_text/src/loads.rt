//! Load files by name, which all workers share.
ghost use Rattle.std.specs.Prelude.{◌≡◌, ◌≤◌, ◌++◌, [], ◌∷◌, ◌↔◌, ℕ, List, IsTrue, length, OnOk, OnErr};
ghost use Rattle.std.specs.Option.{option_copied};
ghost use Rattle.snap_text.specs.Loads.{most_pairs};
ghost use Rattle.snap_text.specs.LoadFiles.{HasFile, file_of, pairs_of};

use crate::Pairs;
use snap_model::{Key, Name, OutOfMemory};
use std::alloc::Global;
use std::marker::Model;

/// The load files that commands may name. Contracts see a list: each file's name, with its pairs in their order.
#[derive(Debug, Drop)]
pub struct Loads {
    files: Vec<(Name, Pairs)>,
}

impl Model for Loads {
    ghost use Rattle.snap_text.specs.LoadFiles.{Loads, HaveFewPairs};

    ghost Value = { Loads };

    ghost view = { λ l. l.files.items };

    ghost invariant = { λ l. HaveFewPairs l.files.items };
}

impl Loads {
    /// No files. It takes no memory yet.
    pub fn new(alloc: Global) -> Loads
        ensures { result ≡ [] }
    {
        Loads {
            files: Vec::new(alloc),
        }
    }

    /// Adds a file at the end. A refusal changes nothing, and drops the arguments.
    pub fn add(&mut self, name: Name, pairs: Pairs) -> Result<(), OutOfMemory>
        requires new_name { ¬ HasFile self.old name }
        requires few { length pairs ≤ most_pairs }
        ensures ok { OnOk result (self.new ≡ self.old ++ (name, pairs) ∷ []) }
        ensures err { OnErr result (self.new ≡ self.old) }
    {
        self.files.push((name, pairs))?;
        Ok(())
    }

    /// The pairs of a file that is there.
    pub fn pairs_of(&self, name: &Name) -> &[(Key, u64)]
        requires { HasFile self.now name.now }
        ensures pairs { result.now ≡ pairs_of self.now name.now }
        ensures few { length result.now ≤ most_pairs }
    {
        let _files = &self.files;
        let Some(file) = self.file(name) else {
            unreachable!()
        };
        file.1.list()
    }

    /// No file has more pairs than the longest load file can hold: the call does nothing, and tells this.
    pub fn few(&self)
        ensures { (file : List ℕ) → length (pairs_of self.now file) ≤ most_pairs }
    {
        let _files = &self.files;
    }

    /// Whether a file of this name is there.
    pub fn has(&self, name: &Name) -> bool
        ensures { IsTrue result ↔ HasFile self.now name.now }
    {
        self.file(name).is_some()
    }

    fn file(&self, name: &Name) -> Option<&(Name, Pairs)>
        ensures { option_copied result ≡ file_of self.now name.now }
    {
        let wanted = name.text();
        self.files.iter().find(|file| file.0.text() == wanted)
    }
}
