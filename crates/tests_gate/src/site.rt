//! The file on which the threads run.
ghost use Rattle.std.specs.Prelude.{◌≡◌};
ghost use Rattle.mf_gate.specs.Passes.{about};

use mf_gate::Gate;
use mf_places::LoseLine;
use mf_vault::Book;

pub(crate) const SERVERS: u32 = 3;

// The chunks by the numbers of their names: two of data, a copy of each, the parity of each alone,
// and that of both, which is their exclusive or. The first generation holds all but the last, the
// second one the data and the narrow parities, and the third one the data and the wide parity.
pub(crate) static CHUNKS: [u8; 7] = [97, 98, 97, 98, 97, 98, 3];

// A file among threads: its gate, its book, and a lose line for each server.
#[derive(Drop)]
pub(crate) struct Site {
    pub(crate) gate: Gate,
    pub(crate) book: Book,
    pub(crate) lines: Vec<LoseLine>,
    ghost book_is: { book ≡ (about gate).book },
    ghost lines_are: { lines.items ≡ (about gate).losses },
}

// The line that empties a server.
pub(crate) fn line_of(server: u32) -> u32 {
    server.saturating_add(100)
}
