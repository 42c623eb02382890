//! What the entries of a ledger count as.
ghost use Rattle.std.specs.Prelude.{◌≡◌, ◌+◌, ◌<◌, length};
ghost use Rattle.mf_vault.specs.Counting.{io_of, counts, read};

use crate::answers::{Answer, Entry, Op};
use mf_places::Name;
use std::fmt;

/// Chunk operations by their kind.
#[derive(Clone, Copy, Default, PartialEq, Eq)]
pub struct Io {
    /// Gets of data that were answered with the chunk.
    pub pieces: u64,
    /// The same of copies.
    pub copies: u64,
    /// The same of parities.
    pub parities: u64,
    /// Gets that weren't.
    pub misses: u64,
    /// Puts and restores.
    pub writes: u64,
    pub probes: u64,
    /// Discards that changed the name.
    pub drops: u64,
}

impl Io {
    ghost use Rattle.mf_vault.specs.Counting.{SumFits, add_io};
    ghost use Rattle.mf_vault.specs.Texts.{io_numbers};

    /// The operations of both, kind by kind.
    pub fn plus(self, other: Io) -> Io
        requires { SumFits self other }
        ensures { result ≡ add_io self other }
    {
        Io {
            pieces: self.pieces + other.pieces,
            copies: self.copies + other.copies,
            parities: self.parities + other.parities,
            misses: self.misses + other.misses,
            writes: self.writes + other.writes,
            probes: self.probes + other.probes,
            drops: self.drops + other.drops,
        }
    }

    /// The seven numbers, in the order in which they are written.
    pub fn numbers(self) -> [u64; 7]
        ensures { result ≡ io_numbers self }
    {
        [
            self.pieces,
            self.copies,
            self.parities,
            self.misses,
            self.writes,
            self.probes,
            self.drops,
        ]
    }
}

/// The word `io`, and the seven numbers in their order.
impl fmt::Display for Io {
    ghost use Rattle.std.specs.Prelude.{Some};
    ghost use Rattle.mf_vault.specs.Texts.{io_text};

    ghost output = { λ io. Some (io_text io) };

    fn fmt<W: fmt::Write>(&self, f: &mut fmt::Formatter<W>) -> fmt::Result {
        let numbers = self.numbers();
        write!(f, "io")?;
        for n in &numbers {
            write!(f, " {n}")?;
        }
        Ok(())
    }
}

const NOTHING: Io = Io {
    pieces: 0,
    copies: 0,
    parities: 0,
    misses: 0,
    writes: 0,
    probes: 0,
    drops: 0,
};

/// Counts entries by their kind. A lose, a close and a discard that changed nothing count nowhere.
pub fn count_io(entries: &[Entry]) -> Io
    ensures { result ≡ io_of entries.now }
{
    let mut io = NOTHING;
    for entry in entries {
        io = io.plus(count(*entry));
    }
    io
}

fn count(entry: Entry) -> Io
    ensures { result ≡ counts entry }
{
    match entry {
        Entry::Chunk {
            op: Op::Get,
            name,
            answer: Answer::Here,
        } => read_of(name),
        Entry::Chunk {
            op: Op::Get,
            name: _,
            answer: _,
        } => Io {
            misses: 1,
            ..NOTHING
        },
        Entry::Chunk {
            op: Op::Put | Op::Restore,
            name: _,
            answer: _,
        } => Io {
            writes: 1,
            ..NOTHING
        },
        Entry::Chunk {
            op: Op::Probe,
            name: _,
            answer: _,
        } => Io {
            probes: 1,
            ..NOTHING
        },
        Entry::Chunk {
            op: Op::Discard,
            name: _,
            answer: Answer::Done,
        } => Io {
            drops: 1,
            ..NOTHING
        },
        Entry::Chunk {
            op: Op::Discard | Op::Lose,
            name: _,
            answer: _,
        } => NOTHING,
        Entry::Close { g: _, closed: _ } => NOTHING,
    }
}

fn read_of(name: Name) -> Io
    ensures { result ≡ read name }
{
    match name {
        Name::Data(_) => Io {
            pieces: 1,
            ..NOTHING
        },
        Name::Copy(_, _) => Io {
            copies: 1,
            ..NOTHING
        },
        Name::Parity(_, _, _) => Io {
            parities: 1,
            ..NOTHING
        },
    }
}
