//! A piece of a worker's output.
ghost use Rattle.std.specs.Prelude.{◌≡◌};

use snap_model::Name;
use std::marker::Model;

/// The bytes of a piece. Contracts see them as a list.
#[derive(Debug, Drop)]
pub struct PieceBytes {
    bytes: Vec<u8>,
}

impl Model for PieceBytes {
    ghost use Rattle.std.specs.Prelude.{ℕ, List};

    ghost Value = { List ℕ };

    ghost view = { λ p. p.bytes.items };
}

impl PieceBytes {
    /// These bytes. It takes no memory.
    pub fn of(bytes: Vec<u8>) -> PieceBytes
        ensures { result ≡ bytes.items }
    {
        PieceBytes { bytes }
    }

    /// The bytes, in their order.
    pub fn list(&self) -> &[u8]
        ensures { result.now ≡ self.now }
    {
        self.bytes.as_slice()
    }
}

/// Bytes that a worker hands out for the end of a file.
#[derive(Debug, Drop)]
pub struct Piece {
    pub worker: u32,
    /// Its place among the pieces of its worker.
    pub number: u64,
    pub file: Name,
    pub bytes: PieceBytes,
}
