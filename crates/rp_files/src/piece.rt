use rp_base::{List, Text};

/// A definition file or a drop-in with its bytes.
#[derive(Debug, Drop)]
pub struct Piece {
    /// The name of the main file.
    pub file: Text,
    /// The name of the drop-in, empty for the main file.
    pub part: Text,
    pub bytes: List<u8>,
}
