//! The scripts of a run, as a list that contracts can see.
ghost use Rattle.std.specs.Prelude.{◌≡◌, [], ◌∷◌, ◌++◌, OnOk, OnErr};

use snap_model::OutOfMemory;
use snap_text::Script;
use std::alloc::Global;
use std::marker::Model;

/// Scripts in their order. Contracts see it as a list of them, each a list of lines.
#[derive(Debug, Drop)]
pub struct ScriptList {
    items: Vec<Script>,
}

impl Model for ScriptList {
    ghost use Rattle.std.specs.Prelude.{List};
    ghost use Rattle.snap_text.specs.declared.script.Line.{Line};

    ghost Value = { List (List Line) };

    ghost view = { λ scripts. scripts.items.items };
}

impl ScriptList {
    /// No scripts; it takes no memory.
    pub fn new(alloc: Global) -> ScriptList
        ensures { result ≡ [] }
    {
        ScriptList {
            items: Vec::new(alloc),
        }
    }

    /// Adds a script at the end. A refusal drops it and leaves the others.
    pub fn add(&mut self, script: Script) -> Result<(), OutOfMemory>
        ensures ok { OnOk result (self.new ≡ self.old ++ script ∷ []) }
        ensures err { OnErr result (self.new ≡ self.old) }
    {
        self.items.push(script)?;
        Ok(())
    }

    /// The scripts.
    pub fn list(&self) -> &[Script]
        ensures { result.now ≡ self.now }
    {
        self.items.as_slice()
    }
}
