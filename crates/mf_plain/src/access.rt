//! The access of a file's only actor.
ghost use Rattle.mf_plain.specs.Alone.{stored};
ghost use Rattle.mf_plain.specs.Standing.{Stands};

use crate::known::Known;
use crate::plain::Plain;
use mf_vault::{Book, Entry, Losses, Note, Rest, Servers, birth};
use std::alloc::Global;

/// The access of a file's only actor, over a file in memory.
#[derive(Drop)]
pub struct PlainAccess {
    pub(crate) book: Book,
    pub(crate) number: u32,
    pub(crate) right: bool,
    pub(crate) hold: Option<u32>,
    pub(crate) work: Option<u32>,
    pub(crate) closed: Vec<bool>,
    pub(crate) names: Vec<Rest>,
    pub(crate) born: u64,
    pub(crate) ticks: u64,
    pub(crate) cut: Servers,
    pub(crate) ledger: Vec<Entry>,
    pub(crate) known: Note<Known>,
    ghost stands: { Stands book born ticks known.value
        (stored number right hold work closed.items names.items) ledger.items cut },
}

impl PlainAccess {
    ghost use Rattle.std.specs.Prelude.{◌≡◌, ◌≤◌, List, ◌++◌, IfSome, Some};
    ghost use Rattle.mf_places.specs.declared.losses.LoseLine.{LoseLine};
    ghost use Rattle.mf_plain.specs.Alone.{first_actor, rested};
    ghost use Rattle.mf_plain.specs.Whole.{actor_of, state_of};

    /// The access of the only actor of a file at rest, in a phase with these ticks and these lose
    /// lines, of which the file's come first.
    pub fn new(alloc: Global, plain: Plain, now: u64, losses: &Losses) -> PlainAccess
        requires since { plain.born ≤ now }
        requires lines { (more : List LoseLine) × (losses.now ≡ plain.losses ++ more) }
        ensures { actor_of result ≡ first_actor plain now losses.now }
    {
        let known = Note::pick(&(&plain, losses));
        let Plain {
            book,
            published,
            closed,
            names,
            born,
            told: _,
        } = plain;
        let born = birth(published, now, born);
        PlainAccess {
            book,
            number: published,
            right: false,
            hold: None,
            work: None,
            closed,
            names,
            born,
            ticks: now,
            cut: Servers::none(),
            ledger: Vec::new(alloc),
            known,
        }
    }

    /// The file at rest that is left, and the ledger. Pins and the right are free with it.
    pub fn finish(self) -> (Plain, Vec<Entry>)
        ensures rests { IfSome (actor_of self).whole
            (λ w. result.0 ≡ rested (actor_of self).facts w) }
        ensures ledger { result.1.items ≡ (actor_of self).entries }
    {
        let told = Note::pick(&self);
        let born = birth(self.number, 0, self.born);
        let plain = Plain {
            book: self.book,
            published: self.number,
            closed: self.closed,
            names: self.names,
            born,
            told,
        };
        (plain, self.ledger)
    }

    /// An only actor always tells the whole state, from what is stored.
    pub fn tells_whole(&self)
        ensures { (actor_of self.now).whole ≡ Some (state_of self.now) }
    {
        let _ = self;
    }
}
