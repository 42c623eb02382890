//! A stripe in memory, of which the first pieces may be lost.
ghost use Rattle.std.specs.Prelude.{◌≡◌, None, Ok, IfOk, IfSome, length};
ghost use Rattle.mf_decode.specs.Answers.{answers_after, failure_of};

use crate::codes::{chunks, pieces_without};
use mf_decode::{Asked, Chunk, Memory, Pieces, Place};
use std::alloc::{AllocError, Global};

/// The pieces, None where one is lost, the parities, each of `size` bytes, and what was asked for.
#[derive(Drop)]
pub struct Lossy<'a> {
    pub points: &'a [u8],
    pub size: u32,
    pub pieces: Vec<Option<Chunk>>,
    pub parities: Vec<Chunk>,
    pub asked: Vec<Asked>,
    pub failure: Option<Place>,
}

impl<'a> Lossy<'a> {
    /// A stripe of so many pieces without the first `lost` ones, with a parity for each point, of
    /// which there are at most four.
    pub fn new(
        alloc: Global,
        points: &'a [u8],
        count: u32,
        lost: u32,
        size: u32,
    ) -> Result<Lossy<'a>, Memory>
        ensures { IfOk result (λ lossy. (lossy.points.now ≡ points.now) × (lossy.size ≡ size)
            × (lossy.failure ≡ None)) }
    {
        Ok(Lossy {
            points,
            size,
            pieces: pieces_without(alloc, count, lost, size)?,
            parities: chunks(alloc, points.len().min(4) as u32, size)?,
            asked: Vec::new(alloc),
            failure: None,
        })
    }

    // A further owner of the chunk, where it is there and has the stripe's size.
    fn share(&self, chunk: Option<&Chunk>) -> Result<Option<Chunk>, Memory>
        ensures { IfOk result (λ o. IfSome o (λ bytes. length bytes ≡ self.now.size)) }
    {
        match chunk {
            Some(chunk) if chunk.bytes().len() == self.size as usize => Ok(Some(chunk.share()?)),
            _ => Ok(None),
        }
    }

    // The answer, told and kept.
    fn told(
        &mut self,
        place: Place,
        answer: Result<Option<Chunk>, Memory>,
    ) -> Result<Option<Chunk>, Memory>
        requires { self.old.failure ≡ None }
        ensures chunk { IfOk result (λ o. answer ≡ Ok o) }
        ensures answers { self.new.asked.items ≡ answers_after place result self.old.asked.items }
        ensures failure { self.new.failure ≡ failure_of place result }
        ensures stays { (self.new.points ≡ self.old.points) × (self.new.size ≡ self.old.size)
            × (self.new.pieces ≡ self.old.pieces) × (self.new.parities ≡ self.old.parities) }
    {
        match answer {
            Ok(chunk) => {
                let had = chunk.is_some();
                if self.asked.push(Asked { place, had }).is_err() {
                    self.failure = Some(place);
                    return Err(AllocError);
                }
                Ok(chunk)
            }
            Err(e) => {
                self.failure = Some(place);
                Err(e)
            }
        }
    }
}

impl Pieces for Lossy<'_> {
    ghost use Rattle.std.specs.Prelude.{length, None};
    ghost use Rattle.bench.specs.Stripes.{stripe_of, shape_of};

    ghost stripe = { λ s. stripe_of s.size s.points.now (length s.pieces.items) };

    ghost made = { λ _. tt };

    ghost answers = { λ s. s.asked.items };

    ghost failure = { λ s. s.failure };

    ghost shape = { λ s. shape_of s.size s.points.now (length s.pieces.items) };

    fn piece(&mut self, t: u32) -> Result<Option<Chunk>, Memory> {
        let answer = match self.pieces.get(t as usize) {
            Some(Some(chunk)) => self.share(Some(chunk)),
            _ => Ok(None),
        };
        self.told(Place::Piece(t), answer)
    }

    fn parity(&mut self, p: u32) -> Result<Option<Chunk>, Memory> {
        let answer = self.share(self.parities.get(p as usize));
        self.told(Place::Parity(p), answer)
    }
}
