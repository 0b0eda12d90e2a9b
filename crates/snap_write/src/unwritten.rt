//! Why not all files were written.
use snap_model::Name;

/// The first file that could not be written, or want of memory for its name.
#[derive(Debug, Drop)]
pub enum Unwritten {
    File { file: Name },
    Memory,
}
