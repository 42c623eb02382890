//! What contracts alone see. No value of these is made.

use mf_machine::View;
use mf_vault::{Book, LoseLine, Rest};

/// The file at rest from which a gate is made: its book, its bytes, the lose lines up to the end of
/// the phase, the published number, the closed generations and the names.
pub struct About {
    pub book: Book,
    pub bytes: [u8; 0],
    pub losses: [LoseLine; 0],
    pub number: u64,
    pub closed: [bool; 0],
    pub names: [Rest; 0],
}

/// What a pass knows: the file at rest from which its gate was made, and its actor.
pub struct Known {
    pub about: About,
    pub view: View,
}
