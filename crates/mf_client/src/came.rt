//! What came of a command.

ghost use Rattle.std.specs.Prelude.{◌≡◌, ◌<◌, ◌≤◌, ◌++◌, ◌∷◌, [], drop, length, vec_capacity};
ghost use Rattle.mf_vault.specs.Counting.{io_of};

use crate::done::{Outcome, Part};
use mf_vault::{Entry, Io, count_io};

// No operation on chunks.
pub(crate) const NOTHING: Io = Io {
    pieces: 0,
    copies: 0,
    parities: 0,
    misses: 0,
    writes: 0,
    probes: 0,
    drops: 0,
};

// What came of a command, its parts, and the operations that it took.
#[derive(Drop)]
pub(crate) struct Came {
    pub(crate) outcome: Outcome,
    pub(crate) parts: Vec<Part>,
    pub(crate) io: Io,
}

// The operations of the entries from number `from` on.
pub(crate) fn count_from(entries: &[Entry], from: usize) -> Io
    requires { from ≤ length entries.now }
    ensures { result ≡ io_of (drop from entries.now) }
{
    count_io(&entries[from..])
}

// Appends within the room that is there.
pub(crate) fn append<T: Drop>(items: &mut Vec<T>, next: T)
    requires { length items.old.items < vec_capacity items.old }
    ensures items { items.new.items ≡ items.old.items ++ next ∷ [] }
    ensures capacity { vec_capacity items.old ≤ vec_capacity items.new }
{
    if items.push(next).is_err() {
        unreachable!()
    }
}
