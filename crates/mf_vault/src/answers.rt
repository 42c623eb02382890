//! What the calls of an access answer, and the entries of its ledger.

use mf_kernel::Chunk;
use mf_machine::Closed;
use mf_places::Name;

/// What a pin found: the generation that it pinned; or that the file isn't created, or is removed.
#[derive(Clone, Copy, PartialEq, Eq, Drop)]
pub enum Pinned {
    At(u32),
    Absent,
    Removed,
}

/// What a get found. Lost has the line of the lose command, and Away the server that can't be
/// reached.
#[derive(Drop)]
pub enum Got {
    Here(Chunk),
    Lost(u32),
    Away(u32),
    /// The chunk couldn't be shared for want of memory.
    Memory,
}

/// An operation on a chunk.
#[derive(Clone, Copy, PartialEq, Eq, Drop)]
pub enum Op {
    Get,
    Probe,
    Put,
    Restore,
    Discard,
    Lose,
}

/// The answer of an operation on a chunk. Done and Nothing say whether it changed the name.
#[derive(Clone, Copy, PartialEq, Eq, Drop)]
pub enum Answer {
    Here,
    Lost(u32),
    Away(u32),
    Unborn,
    Done,
    Nothing,
}

/// An entry of a ledger.
#[derive(Clone, Copy, PartialEq, Eq, Drop)]
pub enum Entry {
    Chunk { op: Op, name: Name, answer: Answer },
    Close { g: u32, closed: Closed },
}

/// A name at rest.
#[derive(Drop)]
pub enum Rest {
    Unborn,
    Here(Chunk),
    Lost(u32),
    Dropped,
}
