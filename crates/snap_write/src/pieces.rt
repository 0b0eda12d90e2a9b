//! Files that grow piece by piece.
ghost use Rattle.std.specs.Prelude.{◌≡◌, ◌≤◌, ◌∷◌, [], IfErr, OnErr, OnOk};
ghost use Rattle.snap_io.specs.Causes.{Rose};
ghost use Rattle.snap_io.specs.Shelves.{Changes, IfTold};
ghost use Rattle.snap_write.specs.Outputs.{IsUnwritten};
ghost use Rattle.snap_write.specs.Pieces.{HasPut, HasPutPart, IsThereToAdd};

use crate::unwritten::Unwritten;
use crate::writing::{unwritten, write};
use snap_io::Shelf;
use snap_model::Name;
use std::alloc::Global;

/// Puts a piece out: it makes its file anew with this text, or adds the text to the file that is there.
pub fn put<S: Shelf>(
    alloc: Global,
    shelf: &mut S,
    file: &Name,
    makes: bool,
    text: &[u8],
) -> Result<(), Unwritten>
    requires { IfTold (S.files shelf.old) (IsThereToAdd makes file.now) }
    ensures put { OnOk result (Changes (S.files shelf.old) (S.files shelf.new)
        (HasPut ((record { file = file.now; makes = makes; text = text.now }) ∷ []))) }
    ensures part { OnErr result (Changes (S.files shelf.old) (S.files shelf.new)
        (HasPutPart [] (record { file = file.now; makes = makes; text = text.now }))) }
    ensures stops { IfErr result
        (IsUnwritten (file.now ∷ []) (Rose (S.write_faults shelf.old) (S.write_faults shelf.new))) }
    ensures later { S.write_faults shelf.old ≤ S.write_faults shelf.new }
    ensures reads { S.read_faults shelf.new ≡ S.read_faults shelf.old }
{
    if makes {
        return write(alloc, shelf, file, text);
    }
    match shelf.append(file.text(), text) {
        Ok(()) => Ok(()),
        Err(_) => Err(unwritten(alloc, file)),
    }
}
