//! What contracts alone see. No value of these is made.

use mf_machine::View;
use mf_vault::{LoseLine, Rest};

/// Of a file at rest: its bytes, and the lose lines that its names may show.
pub struct Told {
    pub bytes: [u8; 0],
    pub losses: [LoseLine; 0],
}

/// The file at rest from which a phase began.
pub struct Opened {
    pub number: u64,
    pub closed: [bool; 0],
    pub names: [Rest; 0],
}

/// Of a file that an actor has alone.
pub struct Known {
    pub told: Told,
    pub opened: Opened,
    pub view: View,
}
