//! A stripe in memory, of which places are lost.
ghost use Rattle.std.specs.Prelude.{◌≡◌, None, Ok, length, IfOk, IfSome};
ghost use Rattle.mf_decode.specs.Answers.{answers_after, failure_of};

use crate::plain::{parity, rows};
use mf_decode::{Asked, Chunk, Memory, Pieces, Place};
use std::alloc::{AllocError, Global};

// The pieces and the parities of a stripe, None where one is lost, and what was asked for. Each has
// `size` bytes.
#[derive(Drop)]
pub struct Store<'a> {
    pub points: &'a [u8],
    pub size: u32,
    pub pieces: Vec<Option<Chunk>>,
    pub parities: Vec<Option<Chunk>>,
    pub asked: Vec<Asked>,
    pub failure: Option<Place>,
}

// The rows as chunks, without those of the set.
pub fn chunks_left(
    alloc: Global,
    rows: &[Vec<u8>],
    lost: u64,
) -> Result<Vec<Option<Chunk>>, Memory> {
    let mut chunks = Vec::new(alloc);
    let mut rest = lost;
    for row in rows {
        if rest & 1 == 1 {
            chunks.push(None)?;
        } else {
            chunks.push(Some(Chunk::new(alloc, row.clone()?)?))?;
        }
        rest >>= 1;
    }
    Ok(chunks)
}

impl<'a> Store<'a> {
    // A stripe of the first `count` rows, without the pieces and the parities of the two sets.
    pub fn new(
        alloc: Global,
        points: &'a [u8],
        count: u32,
        size: u32,
        lost: u64,
        lost_parities: u64,
    ) -> Result<Store<'a>, Memory>
        ensures { IfOk result (λ store. (store.points.now ≡ points.now)
            × (store.size ≡ size) × (store.failure ≡ None)) }
    {
        let data = rows(alloc, 0, count, size as usize)?;
        let mut parities = Vec::new(alloc);
        for point in points {
            parities.push(parity(alloc, *point, &data, size as usize)?)?;
        }
        Ok(Store {
            points,
            size,
            pieces: chunks_left(alloc, &data, lost)?,
            parities: chunks_left(alloc, &parities, lost_parities)?,
            asked: Vec::new(alloc),
            failure: None,
        })
    }

    // A further owner of the chunk, where it is there and has the store's size.
    fn share(&self, chunk: Option<&Option<Chunk>>) -> Result<Option<Chunk>, Memory>
        ensures { IfOk result (λ o. IfSome o (λ bytes. length bytes ≡ self.now.size)) }
    {
        if let Some(Some(chunk)) = chunk {
            if chunk.bytes().len() == self.size as usize {
                return Ok(Some(chunk.share()?));
            }
        }
        Ok(None)
    }

    // The answer, told and kept.
    fn told(
        &mut self,
        place: Place,
        answer: Result<Option<Chunk>, Memory>,
    ) -> Result<Option<Chunk>, Memory>
        requires { self.old.failure ≡ None }
        ensures chunk { IfOk result (λ o. answer ≡ Ok o) }
        ensures answers { self.new.asked.items ≡ answers_after place result self.old.asked.items }
        ensures failure { self.new.failure ≡ failure_of place result }
        ensures stays { (self.new.points ≡ self.old.points) × (self.new.size ≡ self.old.size)
            × (self.new.pieces ≡ self.old.pieces) × (self.new.parities ≡ self.old.parities) }
    {
        match answer {
            Ok(chunk) => {
                let had = chunk.is_some();
                if self.asked.push(Asked { place, had }).is_err() {
                    self.failure = Some(place);
                    return Err(AllocError);
                }
                Ok(chunk)
            }
            Err(e) => {
                self.failure = Some(place);
                Err(e)
            }
        }
    }
}

impl Pieces for Store<'_> {
    ghost use Rattle.std.specs.Prelude.{length, None};
    ghost use Rattle.tests_codes.specs.Stores.{stripe_of, shape_of};

    ghost stripe = { λ s. stripe_of s.size s.points.now (length s.pieces.items) };

    ghost made = { λ _. tt };

    ghost answers = { λ s. s.asked.items };

    ghost failure = { λ s. s.failure };

    ghost shape = { λ s. shape_of s.size s.points.now (length s.pieces.items) };

    fn piece(&mut self, t: u32) -> Result<Option<Chunk>, Memory> {
        let answer = self.share(self.pieces.get(t as usize));
        self.told(Place::Piece(t), answer)
    }

    fn parity(&mut self, p: u32) -> Result<Option<Chunk>, Memory> {
        let answer = self.share(self.parities.get(p as usize));
        self.told(Place::Parity(p), answer)
    }
}
