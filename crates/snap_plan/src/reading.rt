//! Files are read whole, in pieces, to the size that was told and no further; one that is too long is not read.
ghost use Rattle.std.specs.Prelude.{◌≡◌, ◌<◌, ◌≤◌, ◌+◌, ◌⊎◌, ◌++◌, [], ◌∷◌, Ok, Err, None, false, true, length, map, option_map, vec_len, IfOk, IfErr, OnOk};
ghost use Rattle.snap_io.specs.Prelude.{IfTold, OnlyReads, Rose};
ghost use Rattle.snap_io.specs.Shelves.{IsAbsent, Sizes};
ghost use Rattle.snap_plan.specs.Inputs.{inputs_in};
ghost use Rattle.snap_plan.specs.Reading.{IsFront, IsRead, IsSize, IsWhole};
ghost use Rattle.snap_plan.specs.Stops.{IsPastWords, IsUnread, StopsBy};

use crate::Stop;
use snap_io::{Failed, Shelf};
use snap_model::{Name, OutOfMemory};
use std::alloc::{AllocError, Global};
use std::marker::Model;

/// The most bytes that are asked for at once.
const PIECE: u64 = 65_536;

/// A file that was read. Contracts see its name, and its bytes unless it is too long.
#[derive(Drop)]
pub struct Input {
    pub name: Name,
    pub bytes: Option<Vec<u8>>,
}

impl Model for Input {
    ghost use Rattle.std.specs.Prelude.{option_map};
    ghost use Rattle.snap_plan.specs.Inputs.{Input};

    ghost Value = { Input };

    ghost view = { λ i. (i.name, option_map (λ b. b.items) i.bytes) };
}

/// Why a file could not be read whole.
#[derive(Clone, Copy)]
enum ReadFault {
    /// The shelf failed.
    Failed,
    /// Want of memory.
    Memory,
}

impl From<Failed> for ReadFault {
    ghost use Rattle.snap_plan.specs.declared.reading.ReadFault.TheVariants as faults;

    ghost from_gives = { λ _ fault. fault ≡ faults.Failed };

    fn from(_: Failed) -> Self {
        ReadFault::Failed
    }
}

impl From<AllocError> for ReadFault {
    ghost use Rattle.snap_plan.specs.declared.reading.ReadFault.TheVariants as faults;

    ghost from_gives = { λ _ fault. fault ≡ faults.Memory };

    fn from(_: AllocError) -> Self {
        ReadFault::Memory
    }
}

/// Reads files in their order, of which each that has more bytes than `most` is only asked for its size.
pub fn read_all<S: Shelf>(
    alloc: Global,
    shelf: &mut S,
    names: &[Name],
    most: u64,
) -> Result<Vec<Input>, Stop>
    ensures inputs { IfOk result
        (λ inputs. IfTold (S.files shelf.old) (λ f. inputs_in most f names.now ≡ Ok inputs.items)) }
    ensures names { IfOk result (λ inputs. map (λ input. input.0) inputs.items ≡ names.now) }
    ensures past_words { IfErr result IsPastWords }
    ensures stops { IfErr result
        (StopsBy (S.files shelf.old) (λ f. inputs_in most f names.now) (λ f. names.now)
        (Rose (S.read_faults shelf.old) (S.read_faults shelf.new))) }
    ensures only_reads { OnlyReads S.files S.read_faults S.write_faults shelf.old shelf.new }
{
    let mut inputs = Vec::new(alloc);
    for name in names {
        let input = read_input(alloc, shelf, name, most)?;
        add(&mut inputs, input)?;
    }
    Ok(inputs)
}

fn add(inputs: &mut Vec<Input>, input: Input) -> Result<(), OutOfMemory>
    ensures { OnOk result (inputs.new.items ≡ inputs.old.items ++ input ∷ []) }
{
    inputs.push(input)?;
    Ok(())
}

fn read_input<S: Shelf>(alloc: Global, shelf: &mut S, name: &Name, most: u64) -> Result<Input, Stop>
    ensures named { IfOk result (λ input. input.0 ≡ name.now) }
    ensures bytes { IfOk result (λ input. IsRead most (S.files shelf.old) name.now input.1) }
    ensures stops { IfErr result
        (IsUnread name.now (S.files shelf.old)
        (Rose (S.read_faults shelf.old) (S.read_faults shelf.new))) }
    ensures only_reads { OnlyReads S.files S.read_faults S.write_faults shelf.old shelf.new }
{
    let file = Name::new(alloc, name.text())?;
    match read_file(alloc, shelf, name.text(), most) {
        Ok(bytes) => Ok(Input { name: file, bytes }),
        Err(ReadFault::Failed) => Err(Stop::Read { file }),
        Err(ReadFault::Memory) => Err(Stop::Memory),
    }
}

// The bytes of a file, or none where it has more than `most`.
fn read_file<S: Shelf>(
    alloc: Global,
    shelf: &mut S,
    name: &str,
    most: u64,
) -> Result<Option<Vec<u8>>, ReadFault>
    ensures bytes { IfOk result
        (λ bytes. IsRead most (S.files shelf.old) name.now (option_map (λ b. b.items) bytes)) }
    ensures failed { result ≡ Err ReadFault.Failed
        → Rose (S.read_faults shelf.old) (S.read_faults shelf.new)
        ⊎ IsAbsent (S.files shelf.old) name.now }
    ensures only_reads { OnlyReads S.files S.read_faults S.write_faults shelf.old shelf.new }
{
    let size = shelf.size(name)?;
    if size > most {
        return Ok(None);
    }
    let bytes = read_bytes(alloc, shelf, name, size)?;
    Ok(Some(bytes))
}

// The bytes of a file of which the size was told, and no more than these, in pieces.
fn read_bytes<S: Shelf>(
    alloc: Global,
    shelf: &mut S,
    name: &str,
    size: u64,
) -> Result<Vec<u8>, ReadFault>
    requires { IfTold (S.files shelf.old) (λ f. IsSize size (f name.now)) }
    ensures bytes { IfOk result (λ bytes. IsWhole (S.files shelf.old) name.now bytes.items) }
    ensures no_more { IfOk result (λ bytes. length bytes.items ≤ size) }
    ensures failed { result ≡ Err ReadFault.Failed
        → Rose (S.read_faults shelf.old) (S.read_faults shelf.new)
        ⊎ IsAbsent (S.files shelf.old) name.now }
    ensures only_reads { OnlyReads S.files S.read_faults S.write_faults shelf.old shelf.new }
{
    let mut bytes = Vec::new(alloc);
    let mut buffer = vec![in alloc; 0u8; size.min(PIECE) as usize]?;
    let piece = buffer.as_mut_slice();
    'pieces: while (bytes.len() as u64) < size {
        let wanted = (size - bytes.len() as u64).min(PIECE) as usize;
        if !read_more(shelf, name, &mut piece[..wanted], &mut bytes)? {
            break 'pieces;
        }
    }
    Ok(bytes)
}

// Reads a piece behind what was read, and tells whether there was one.
fn read_more<S: Shelf>(
    shelf: &mut S,
    name: &str,
    piece: &mut [u8],
    bytes: &mut Vec<u8>,
) -> Result<bool, ReadFault>
    requires front { IsFront (S.files shelf.old) name.now bytes.old.items }
    requires room { 0 < length piece.old }
    ensures front { OnOk result (IsFront (S.files shelf.old) name.now bytes.new.items) }
    ensures more { result ≡ Ok true → vec_len bytes.old < vec_len bytes.new }
    ensures end { result ≡ Ok false → IsWhole (S.files shelf.old) name.now bytes.new.items }
    ensures no_more { OnOk result (vec_len bytes.new ≤ vec_len bytes.old + length piece.old) }
    ensures failed { result ≡ Err ReadFault.Failed
        → Rose (S.read_faults shelf.old) (S.read_faults shelf.new)
        ⊎ IsAbsent (S.files shelf.old) name.now }
    ensures only_reads { OnlyReads S.files S.read_faults S.write_faults shelf.old shelf.new }
{
    let at = bytes.len() as u64;
    let got = shelf.read(name, at, piece)?;
    bytes.extend_from_slice(&piece[..got])?;
    Ok(got > 0)
}
