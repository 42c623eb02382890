//! A file among many actors.
ghost use Rattle.std.specs.Prelude.{◌≡◌, ◌≤◌, length};
ghost use Rattle.mf_places.specs.Names.{count_of};
ghost use Rattle.mf_vault.specs.Licence.{IsFile};
ghost use Rattle.mf_gate.specs.Passes.{about};
ghost use Rattle.mf_gate.specs.Table.{facts_of};

use mf_gate::Gate;
use mf_vault::Book;

/// A file among many actors: its book, its table, the ticks at its creation (or, where it rested
/// uncreated, of this phase), and those of this phase.
#[derive(Drop)]
pub struct Shared {
    pub(crate) book: Book,
    pub(crate) gate: Gate,
    pub(crate) born: u64,
    pub(crate) ticks: u64,
    ghost book_is: { book ≡ (about gate).book },
    ghost file: { IsFile (facts_of (about gate)) },
    ghost closed: { length (about gate).closed ≡ length (about gate).book.shape.stages },
    ghost names: { length (about gate).names ≡ count_of (about gate).book },
    ghost since: { born ≤ ticks },
}
