//! What a run came to.
use snap_service::Fronts;

/// What a run came to.
#[derive(Drop)]
pub struct Outcome {
    /// The program's status: 0 all done, 1 all done and some reply is `full` or `full after N`, 2 the words are refused, 3 a
    /// script or a load file is refused, 4 one of them could not be read, 5 a file or the summary could not be written, 6
    /// want of memory.
    pub status: u8,
    /// The closed tables, where the run came so far: at 0, 1 and 5.
    pub fronts: Fronts,
}
