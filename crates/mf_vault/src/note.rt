//! A value that contracts alone see.
ghost use Rattle.std.specs.Prelude.{◌≡◌};
ghost use base.Fml.{ftrue};

use std::marker::{Model, PhantomData};

/// A `T` as clauses see it. It has no bytes, and no `T` is ever made.
#[derive(Drop)]
pub struct Note<T> {
    marker: PhantomData<T>,
    pub ghost value: { T },
}

impl<T> Model for Note<T> {
    ghost also_owns = { λ _. ftrue };
}

impl<T> Note<T> {
    /// A note of what the caller's proof picks, which may speak of what is passed.
    pub fn pick<C>(from: &C) -> Note<T>
        ghost v: { T }
        ensures { result.value ≡ v }
    {
        let _ = from;
        Note {
            marker: PhantomData,
        }
    }
}
