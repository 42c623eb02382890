//! A stripe, asked for through an access.
ghost use Rattle.std.specs.Prelude.{◌≡◌, ◌<◌, ◌≤◌, length};
ghost use Rattle.mf_vault.specs.Actor.{Actor};
ghost use Rattle.mf_read.specs.Groups.{IsReader, IsSince};
ghost use Rattle.mf_read.specs.Nobody.{nobody};

use crate::asking::{Stop, ask_at};
use mf_decode::{Pieces, Place};
use mf_kernel::{Chunk, Memory};
use mf_vault::Fetch;
use std::marker::{Brand, PhantomData};

// The actor with which an asking began.
pub(crate) trait Begun {
    ghost start: { Actor };
}

impl Begun for Brand {
    ghost start = { nobody };
}

// Stripe `j` of generation `g`. All calls since it was made are gets for its places.
#[derive(Drop)]
pub(crate) struct Asker<'a, A: Fetch, K: Begun> {
    pub(crate) access: &'a mut A,
    pub(crate) g: u32,
    pub(crate) j: u32,
    pub(crate) stopped: Option<Stop>,
    pub(crate) start: PhantomData<K>,
    ghost reader: { IsReader g j K.start },
    ghost since: { ∥ IsSince g j K.start stopped (A.actor access.now) ∥₁ },
}

impl<'a, A: Fetch, K: Begun> Pieces for Asker<'a, A, K> {
    ghost use Rattle.std.specs.Prelude.{ℕ};
    ghost use Rattle.mf_read.specs.Groups.{told, since, stopped_at};
    ghost use Rattle.mf_read.specs.Stripes.{stripe_at, stripe_shape};

    ghost stripe = { λ s. stripe_at (A.actor s.access.now).facts s.g s.j };

    ghost Made = { ℕ × ℕ × ℕ };

    ghost made = { λ s. (s.access.ghost_name, s.g, s.j) };

    ghost answers = { λ s. told (A.actor s.access.now).facts.book s.g s.j
        (since K.start (A.actor s.access.now)) };

    ghost failure = { λ s. stopped_at s.stopped };

    ghost shape = { λ s. stripe_shape s.g s.j (A.actor s.access.now) (A.kept s.access.now) };

    fn piece(&mut self, t: u32) -> Result<Option<Chunk>, Memory> {
        let g = self.g;
        let j = self.j;
        ask_at(&mut *self.access, &mut self.stopped, g, j, Place::Piece(t))
    }

    fn parity(&mut self, p: u32) -> Result<Option<Chunk>, Memory> {
        let g = self.g;
        let j = self.j;
        ask_at(&mut *self.access, &mut self.stopped, g, j, Place::Parity(p))
    }
}
