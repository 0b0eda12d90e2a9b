//! Whether a session can run a command.
ghost use Rattle.std.specs.Prelude.{◌↔◌, All, IsTrue};
ghost use Rattle.snap_service.specs.{Serving.CanRun, States.HasFreeSlot, States.IsTaken};
ghost use Rattle.snap_text.specs.Numbers.{FitsValue};

use super::Session;
use crate::Loads;
use snap_model::{Command, Key};

impl<'t> Session<'t> {
    /// Whether a command can be run now: a clone needs a free slot, whatever asks a clone needs a taken one, a named
    /// table or load file has to be there, and no value may be the greatest word.
    pub fn can_run(&self, command: &Command, loads: &Loads) -> bool
        ensures { IsTrue result ↔ CanRun self.now loads.now command.now }
    {
        match command {
            Command::Remove { .. } | Command::Get { .. } => true,
            Command::Put { value, .. } => *value < u64::MAX,
            Command::Table { name } => self.service.place_of(name).is_some(),
            Command::Load { file } => loads.has(file) && have_room(loads.pairs_of(file)),
            Command::Snap { slot, .. } => self.is_free(*slot),
            Command::Forget { slot, .. }
            | Command::See { slot, .. }
            | Command::First { slot }
            | Command::Last { slot }
            | Command::Floor { slot, .. }
            | Command::Lower { slot, .. }
            | Command::Ceiling { slot, .. }
            | Command::Higher { slot, .. }
            | Command::Count { slot, .. }
            | Command::Depth { slot }
            | Command::Export { slot, .. } => self.is_taken(*slot),
        }
    }

    fn is_taken(&self, slot: u8) -> bool
        ensures { IsTrue result ↔ IsTaken self.now slot }
    {
        let place = slot as usize;
        place < self.clones.len() && self.clones[place].is_some()
    }

    fn is_free(&self, slot: u8) -> bool
        ensures { IsTrue result ↔ HasFreeSlot self.now slot }
    {
        let place = slot as usize;
        place < self.clones.len() && self.clones[place].is_none()
    }
}

// Whether no value is the greatest word.
fn have_room(pairs: &[(Key, u64)]) -> bool
    ensures { IsTrue result ↔ All (λ pair. FitsValue pair.1) pairs.now }
{
    pairs.iter().all(|pair| pair.1 < u64::MAX)
}
