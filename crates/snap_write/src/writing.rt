//! Each call says what the files are after it, and after its first failure.
ghost use Rattle.std.specs.Prelude.{◌≡◌, ◌≢◌, ◌≤◌, ◌⊎◌, Some, [], ◌∷◌, AllPairs, IfErr, OnErr, OnOk};
ghost use Rattle.snap_io.specs.Causes.{Rose};
ghost use Rattle.snap_io.specs.Shelves.{Changes, IfTold};
ghost use Rattle.snap_write.specs.Outputs.{HasBegun, HasWritten, IsUnwritten, blank, names_of};

use crate::unwritten::Unwritten;
use snap_io::Shelf;
use snap_model::Name;
use std::alloc::Global;
use std::marker::Model;

/// A file's name, and the text that it is to have. Contracts see the two as a pair.
#[derive(Debug, Drop)]
pub struct Output {
    pub file: Name,
    pub text: Vec<u8>,
}

impl Model for Output {
    ghost use Rattle.std.specs.Prelude.{ℕ, List};

    ghost Value = { List ℕ × List ℕ };

    ghost view = { λ e. (e.file, e.text.items) };
}

/// Makes these files, or empties those that are there, in their order.
pub fn create_all<S: Shelf>(alloc: Global, shelf: &mut S, files: &[Name]) -> Result<(), Unwritten>
    requires { AllPairs (λ a b. a ≢ b) files.now }
    ensures written { OnOk result
        (Changes (S.files shelf.old) (S.files shelf.new) (HasWritten (blank files.now))) }
    ensures begun { OnErr result
        (Changes (S.files shelf.old) (S.files shelf.new) (HasBegun (blank files.now))) }
    ensures stops { IfErr result
        (IsUnwritten files.now (Rose (S.write_faults shelf.old) (S.write_faults shelf.new))) }
    ensures later { S.write_faults shelf.old ≤ S.write_faults shelf.new }
    ensures reads { S.read_faults shelf.new ≡ S.read_faults shelf.old }
{
    for file in files {
        create(alloc, shelf, file)?;
    }
    Ok(())
}

/// Writes each of these files, in their order.
pub fn write_all<S: Shelf>(
    alloc: Global,
    shelf: &mut S,
    outputs: &[Output],
) -> Result<(), Unwritten>
    requires { AllPairs (λ a b. a ≢ b) (names_of outputs.now) }
    ensures written { OnOk result
        (Changes (S.files shelf.old) (S.files shelf.new) (HasWritten outputs.now)) }
    ensures begun { OnErr result
        (Changes (S.files shelf.old) (S.files shelf.new) (HasBegun outputs.now)) }
    ensures stops { IfErr result
        (IsUnwritten (names_of outputs.now)
        (Rose (S.write_faults shelf.old) (S.write_faults shelf.new))) }
    ensures later { S.write_faults shelf.old ≤ S.write_faults shelf.new }
    ensures reads { S.read_faults shelf.new ≡ S.read_faults shelf.old }
{
    for output in outputs {
        write_output(alloc, shelf, output)?;
    }
    Ok(())
}

/// Writes the text of a file that was made and is empty.
pub fn append<S: Shelf>(
    alloc: Global,
    shelf: &mut S,
    file: &Name,
    text: &[u8],
) -> Result<(), Unwritten>
    requires { IfTold (S.files shelf.old) (λ f. f file.now ≡ Some []) }
    ensures written { OnOk result
        (Changes (S.files shelf.old) (S.files shelf.new) (HasWritten ((file.now, text.now) ∷ []))) }
    ensures begun { OnErr result
        (Changes (S.files shelf.old) (S.files shelf.new) (HasBegun ((file.now, text.now) ∷ []))) }
    ensures stops { IfErr result
        (IsUnwritten (file.now ∷ []) (Rose (S.write_faults shelf.old) (S.write_faults shelf.new))) }
    ensures later { S.write_faults shelf.old ≤ S.write_faults shelf.new }
    ensures reads { S.read_faults shelf.new ≡ S.read_faults shelf.old }
{
    match shelf.append(file.text(), text) {
        Ok(()) => Ok(()),
        Err(_) => Err(unwritten(alloc, file)),
    }
}

// Makes a file, or empties the one that is there.
fn create<S: Shelf>(alloc: Global, shelf: &mut S, file: &Name) -> Result<(), Unwritten>
    ensures written { OnOk result
        (Changes (S.files shelf.old) (S.files shelf.new) (HasWritten ((file.now, []) ∷ []))) }
    ensures begun { OnErr result
        (Changes (S.files shelf.old) (S.files shelf.new) (HasBegun ((file.now, []) ∷ []))) }
    ensures stops { IfErr result
        (IsUnwritten (file.now ∷ []) (Rose (S.write_faults shelf.old) (S.write_faults shelf.new))) }
    ensures later { S.write_faults shelf.old ≤ S.write_faults shelf.new }
    ensures reads { S.read_faults shelf.new ≡ S.read_faults shelf.old }
{
    match shelf.create(file.text()) {
        Ok(()) => Ok(()),
        Err(_) => Err(unwritten(alloc, file)),
    }
}

/// Makes a file with its text.
pub fn write<S: Shelf>(
    alloc: Global,
    shelf: &mut S,
    file: &Name,
    text: &[u8],
) -> Result<(), Unwritten>
    ensures written { OnOk result
        (Changes (S.files shelf.old) (S.files shelf.new) (HasWritten ((file.now, text.now) ∷ []))) }
    ensures begun { OnErr result
        (Changes (S.files shelf.old) (S.files shelf.new) (HasBegun ((file.now, text.now) ∷ []))) }
    ensures stops { IfErr result
        (IsUnwritten (file.now ∷ []) (Rose (S.write_faults shelf.old) (S.write_faults shelf.new))) }
    ensures later { S.write_faults shelf.old ≤ S.write_faults shelf.new }
    ensures reads { S.read_faults shelf.new ≡ S.read_faults shelf.old }
{
    create(alloc, shelf, file)?;
    append(alloc, shelf, file, text)
}

// Makes a file with its text.
fn write_output<S: Shelf>(alloc: Global, shelf: &mut S, output: &Output) -> Result<(), Unwritten>
    ensures written { OnOk result
        (Changes (S.files shelf.old) (S.files shelf.new) (HasWritten (output.now ∷ []))) }
    ensures begun { OnErr result
        (Changes (S.files shelf.old) (S.files shelf.new) (HasBegun (output.now ∷ []))) }
    ensures stops { IfErr result
        (IsUnwritten (output.now.0 ∷ [])
        (Rose (S.write_faults shelf.old) (S.write_faults shelf.new))) }
    ensures later { S.write_faults shelf.old ≤ S.write_faults shelf.new }
    ensures reads { S.read_faults shelf.new ≡ S.read_faults shelf.old }
{
    write(alloc, shelf, &output.file, &output.text)
}

// The stop at a file that could not be written.
pub(crate) fn unwritten(alloc: Global, file: &Name) -> Unwritten
    ensures { (result ≡ Unwritten.Memory) ⊎ (result ≡ Unwritten.File file.now) }
{
    match Name::new(alloc, file.text()) {
        Ok(file) => Unwritten::File { file },
        Err(_) => Unwritten::Memory,
    }
}
