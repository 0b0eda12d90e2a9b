//! Names, as a list that contracts can see.
ghost use Rattle.std.specs.Prelude.{◌≡◌, [], ◌∷◌, ◌++◌, OnOk, OnErr};

use snap_model::{Name, OutOfMemory};
use std::alloc::Global;
use std::marker::Model;

/// Names in their order. Contracts see it as a list of them.
#[derive(Debug, Drop)]
pub struct NameList {
    items: Vec<Name>,
}

impl Model for NameList {
    ghost use Rattle.std.specs.Prelude.{List, ℕ};

    ghost Value = { List (List ℕ) };

    ghost view = { λ names. names.items.items };
}

impl NameList {
    /// No names; it takes no memory.
    pub fn new(alloc: Global) -> NameList
        ensures { result ≡ [] }
    {
        NameList {
            items: Vec::new(alloc),
        }
    }

    /// Adds a name at the end. A refusal drops it and leaves the others.
    pub fn add(&mut self, name: Name) -> Result<(), OutOfMemory>
        ensures ok { OnOk result (self.new ≡ self.old ++ name ∷ []) }
        ensures err { OnErr result (self.new ≡ self.old) }
    {
        self.items.push(name)?;
        Ok(())
    }

    /// The names.
    pub fn list(&self) -> &[Name]
        ensures { result.now ≡ self.now }
    {
        self.items.as_slice()
    }
}
