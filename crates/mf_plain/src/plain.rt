//! A file at rest.
ghost use Rattle.std.specs.Prelude.{◌≡◌, ◌<◌, ℕ, List, length, false};
ghost use Rattle.std.specs.Prelude.{slice_index_or, All, IfOk, OnErr};
ghost use Rattle.mf_places.specs.Names.{HasName};
ghost use Rattle.mf_places.specs.Numbers.{number_of};
ghost use Rattle.mf_vault.specs.declared.answers.Rest.TheVariants as rest;

use crate::known::Told;
use mf_vault::{Book, Memory, Name, Note, Rest};
use std::alloc::Global;
use std::marker::Model;

/// A file at rest: nobody has a pin, the building right or a chunk of it.
#[derive(Drop)]
pub struct Plain {
    pub(crate) book: Book,
    pub(crate) published: u32,
    pub(crate) closed: Vec<bool>,
    pub(crate) names: Vec<Rest>,
    pub(crate) born: u64,
    pub(crate) told: Note<Told>,
}

impl Model for Plain {
    ghost use Rattle.mf_plain.specs.Resting.{Resting};

    ghost Value = { Resting };

    ghost use Rattle.mf_plain.specs.Kept.{resting_of, IsKept};

    ghost view = { resting_of };

    ghost invariant = { IsKept };
}

impl Plain {
    ghost use Rattle.mf_plain.specs.Resting.{unborn, AtRest};

    /// The file of these bytes, not created. They are known to contracts alone. The only error is
    /// want of memory.
    pub fn new(alloc: Global, book: Book, bytes: &[u8]) -> Result<Plain, Memory>
        requires { length bytes.now ≡ book.bytes }
        ensures { IfOk result (λ plain. plain ≡ unborn book bytes.now) }
    {
        are_bytes(bytes);
        let _ = book.chunk();
        let mut names = Vec::new(alloc);
        for _ in 0..book.count() {
            names.push(Rest::Unborn)?;
        }
        let closed = vec![in alloc; false; book.stages() as usize]?;
        let told = Note::pick(&bytes);
        Ok(Plain {
            book,
            published: 0,
            closed,
            names,
            born: 0,
            told,
        })
    }

    /// The file's book.
    pub fn book(&self) -> &Book
        ensures { result.now ≡ self.now.book }
    {
        &self.book
    }

    /// The published number: 0 for a file that isn't created, one more than the published
    /// generation, or one more than the number of stages for a file that is removed.
    pub fn published(&self) -> u32
        ensures { result ≡ self.now.number }
    {
        self.published
    }

    /// Whether the generation is closed.
    pub fn closed(&self, g: u32) -> bool
        requires { g < length self.now.book.shape.stages }
        ensures { result ≡ slice_index_or self.now.closed g false }
    {
        self.closed[g as usize]
    }

    /// The state of a name. The only error is want of memory, and comes only where the chunk would
    /// be shared.
    pub fn rest(&self, name: Name) -> Result<Rest, Memory>
        requires { HasName self.now.book name }
        ensures state { IfOk result (λ r.
            r ≡ slice_index_or self.now.names (number_of self.now.book name) rest.Unborn) }
        ensures here { OnErr result ((c : List ℕ)
            × (slice_index_or self.now.names (number_of self.now.book name) rest.Unborn
            ≡ rest.Here c)) }
    {
        let Some(n) = self.book.number(name) else {
            unreachable!()
        };
        share(&self.names[n as usize])
    }

    /// The ticks at the file's creation, and 0 before.
    pub fn born(&self) -> u64
        ensures { result ≡ self.now.born }
    {
        self.born
    }

    /// The file keeps the rules with no actor.
    pub fn is_at_rest(&self)
        ensures { AtRest self.now }
    {
        let _ = &self.book;
    }
}

// A byte is below 256.
fn are_bytes(bytes: &[u8])
    ensures { All (λ b. b < 256) bytes.now }
{
    let _ = bytes;
}

// A name at rest, its chunk shared.
fn share(state: &Rest) -> Result<Rest, Memory>
    ensures same { IfOk result (λ r. r ≡ state.now) }
    ensures here { OnErr result ((c : List ℕ) × (state.now ≡ rest.Here c)) }
{
    match state {
        Rest::Unborn => Ok(Rest::Unborn),
        Rest::Here(chunk) => Ok(Rest::Here(chunk.share()?)),
        Rest::Lost(line) => Ok(Rest::Lost(*line)),
        Rest::Dropped => Ok(Rest::Dropped),
    }
}
