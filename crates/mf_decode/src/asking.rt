//! The order of an asking: each piece once, then parities while pieces are missing.
ghost use Rattle.std.specs.Prelude.{◌≡◌, ◌<◌, List, Bool, None, length, MatchResult};
ghost use Rattle.mf_decode.specs.Fronts.{PiecesAsked, PiecesCut, ParitiesAsked, ParitiesCut};

use crate::pieces::Pieces;
use mf_kernel::{Chunk, Memory};
use std::alloc::Global;

// Parities that were had, with their numbers.
#[derive(Drop)]
pub(crate) struct Had {
    pub(crate) numbers: Vec<u32>,
    pub(crate) chunks: Vec<Chunk>,
}

// Asks for each piece once, ascending.
pub(crate) fn ask_pieces<P: Pieces>(
    alloc: Global,
    pieces: &mut P,
    count: u32,
) -> Result<Vec<Option<Chunk>>, Memory>
    requires count { count ≡ (P.stripe pieces.old).count }
    requires unbroken { P.failure pieces.old ≡ None }
    ensures asked { MatchResult result
        (λ found. PiecesAsked (P.stripe pieces.old) (P.answers pieces.old) (P.answers pieces.new)
        (P.failure pieces.new) found.items)
        (λ _. PiecesCut count (P.answers pieces.old) (P.answers pieces.new)
        (P.failure pieces.new)) }
    ensures stays { (P.stripe pieces.new ≡ P.stripe pieces.old)
        × (P.made pieces.new ≡ P.made pieces.old) }
{
    let mut found = Vec::with_capacity(alloc, count as usize)?;
    for t in 0..count {
        found.push(pieces.piece(t)?)?;
    }
    Ok(found)
}

// Asks for parities, ascending, until as many as wanted have been had.
pub(crate) fn ask_parities<P: Pieces>(
    alloc: Global,
    pieces: &mut P,
    points: u32,
    wanted: usize,
) -> Result<Had, Memory>
    requires points { points ≡ length (P.stripe pieces.old).points }
    requires unbroken { P.failure pieces.old ≡ None }
    ensures asked { MatchResult result (λ had. (hs : List Bool)
        × ParitiesAsked (P.stripe pieces.old) wanted (P.answers pieces.old) (P.answers pieces.new)
        (P.failure pieces.new) had.numbers.items had.chunks.items hs)
        (λ _. ParitiesCut points wanted (P.answers pieces.old) (P.answers pieces.new)
        (P.failure pieces.new)) }
    ensures stays { (P.stripe pieces.new ≡ P.stripe pieces.old)
        × (P.made pieces.new ≡ P.made pieces.old) }
{
    let mut numbers = Vec::with_capacity(alloc, wanted)?;
    let mut chunks = Vec::with_capacity(alloc, wanted)?;
    let mut p = 0;
    while p < points && numbers.len() < wanted {
        if let Some(chunk) = pieces.parity(p)? {
            numbers.push(p)?;
            chunks.push(chunk)?;
        }
        p += 1;
    }
    Ok(Had { numbers, chunks })
}
