//! Gathering: the data of a stripe from what can be had of it.
ghost use Rattle.std.specs.Prelude.{◌≡◌, ℕ, ◌^◌, ◌<◌, ◌≤◌, ◌++◌, List, [], None};
ghost use Rattle.std.specs.Prelude.{length, All, IfOk, IfSome};
ghost use Rattle.mf_code.specs.Decodable.{IsDecodable};
ghost use Rattle.mf_erasure.specs.Erasure.{IsErasure};
ghost use Rattle.mf_decode.specs.declared.pieces.Asked.{Asked};
ghost use Rattle.mf_decode.specs.Stripes.{IsDataList};
ghost use Rattle.mf_kernel.specs.Dots.{rows};
ghost use Rattle.mf_decode.specs.Decoding.{Agrees, gaps_from, filled};
ghost use Rattle.mf_decode.specs.Gathering.{IsStripe, IsWhole, IsAnswer, HasAsked, answer_of};

use crate::applying::{apply, shared};
use crate::asking::{Had, ask_parities, ask_pieces};
use crate::caching::PlanCache;
use crate::pieces::Pieces;
use crate::planning::{DecodePlan, NoPlan, plan};
use mf_kernel::{Chunk, Memory};
use std::alloc::{AllocError, Global};

/// What a gathering answers.
#[derive(Drop)]
pub enum Gathered {
    /// All data chunks of the stripe, in order.
    All(Vec<Chunk>),
    /// All parities were asked for, and fewer were had than pieces are missing.
    Short,
    /// Memory ran out, here or where the pieces or the parities were asked for.
    Memory,
}

/// All data of a stripe of `count` pieces, each of `chunk` bytes. It asks for each piece once,
/// ascending, and then for parities, ascending, until as many have been had as pieces are missing.
pub fn gather<P: Pieces>(
    alloc: Global,
    pieces: &mut P,
    points: &[u8],
    width: u32,
    count: u32,
    chunk: u32,
) -> Gathered
    requires width { (1 ≤ width) × (width ≤ 64) }
    requires points { length points.now ≤ 4 }
    requires decodable { IsDecodable points.now width }
    requires count { count ≤ width }
    requires stripe { IsStripe chunk count points.now (P.stripe pieces.old) }
    requires unbroken { P.failure pieces.old ≡ None }
    ensures answer { IsAnswer (P.stripe pieces.old) result }
    ensures asked { (asked : List Asked) × (P.answers pieces.new ≡ P.answers pieces.old ++ asked)
        × HasAsked count (length points.now) asked (P.failure pieces.new) result }
    ensures stays { (P.stripe pieces.new ≡ P.stripe pieces.old)
        × (P.made pieces.new ≡ P.made pieces.old) }
{
    gather_kept(
        alloc,
        &mut PlanCache::none(),
        pieces,
        points,
        width,
        count,
        chunk,
    )
}

/// The same, where the plan that it takes may be one that the cache keeps. A plan that finds no
/// room there is used and dropped.
pub fn gather_kept<P: Pieces>(
    alloc: Global,
    cache: &mut PlanCache,
    pieces: &mut P,
    points: &[u8],
    width: u32,
    count: u32,
    chunk: u32,
) -> Gathered
    requires width { (1 ≤ width) × (width ≤ 64) }
    requires points { length points.now ≤ 4 }
    requires decodable { IsDecodable points.now width }
    requires count { count ≤ width }
    requires stripe { IsStripe chunk count points.now (P.stripe pieces.old) }
    requires unbroken { P.failure pieces.old ≡ None }
    ensures answer { IsAnswer (P.stripe pieces.old) result }
    ensures asked { (asked : List Asked) × (P.answers pieces.new ≡ P.answers pieces.old ++ asked)
        × HasAsked count (length points.now) asked (P.failure pieces.new) result }
    ensures stays { (P.stripe pieces.new ≡ P.stripe pieces.old)
        × (P.made pieces.new ≡ P.made pieces.old) }
{
    match try_gather(alloc, cache, pieces, points, width, count, chunk) {
        Ok(Some(chunks)) => Gathered::All(chunks),
        Ok(None) => Gathered::Short,
        Err(_) => Gathered::Memory,
    }
}

// The data, or None where the asking is short.
fn try_gather<P: Pieces>(
    alloc: Global,
    cache: &mut PlanCache,
    pieces: &mut P,
    points: &[u8],
    width: u32,
    count: u32,
    chunk: u32,
) -> Result<Option<Vec<Chunk>>, Memory>
    requires width { (1 ≤ width) × (width ≤ 64) }
    requires points { length points.now ≤ 4 }
    requires decodable { IsDecodable points.now width }
    requires count { count ≤ width }
    requires stripe { IsStripe chunk count points.now (P.stripe pieces.old) }
    requires unbroken { P.failure pieces.old ≡ None }
    ensures answer { IfOk result (λ o. IfSome o
        (λ chunks. IsWhole (P.stripe pieces.old) chunks.items)) }
    ensures asked { (asked : List Asked) × (P.answers pieces.new ≡ P.answers pieces.old ++ asked)
        × HasAsked count (length points.now) asked (P.failure pieces.new) (answer_of result) }
    ensures stays { (P.stripe pieces.new ≡ P.stripe pieces.old)
        × (P.made pieces.new ≡ P.made pieces.old) }
{
    let found = ask_pieces(alloc, pieces, count)?;
    let erased = gaps_of(alloc, found.as_slice())?;
    let had = ask_parities(alloc, pieces, points.len() as u32, erased.len())?;
    if had.numbers.len() < erased.len() {
        return Ok(None);
    }
    Ok(Some(restored(
        alloc,
        cache,
        points,
        width,
        chunk,
        found,
        erased.as_slice(),
        &had,
    )?))
}

/// The places of the pieces that are missing, ascending: what `plan` and `apply` ask to be erased.
/// The only error is want of memory.
pub fn gaps_of(alloc: Global, found: &[Option<Chunk>]) -> Result<Vec<u32>, Memory>
    requires { length found.now < 2 ^ 32 }
    ensures { IfOk result (λ erased. erased.items ≡ gaps_from 0 found.now) }
{
    let mut erased = Vec::new(alloc);
    for (t, piece) in found.iter().enumerate() {
        if piece.is_none() {
            erased.push(t as u32)?;
        }
    }
    Ok(erased)
}

// The pieces, with those that were not found made from the parities. Where all were found there is
// no plan.
fn restored(
    alloc: Global,
    cache: &mut PlanCache,
    points: &[u8],
    width: u32,
    chunk: u32,
    found: Vec<Option<Chunk>>,
    erased: &[u32],
    had: &Had,
) -> Result<Vec<Chunk>, Memory>
    requires width { (1 ≤ width) × (width ≤ 64) }
    requires points { length points.now ≤ 4 }
    requires decodable { IsDecodable points.now width }
    requires count { length found.items ≤ width }
    requires gaps { gaps_from 0 found.items ≡ erased.now }
    requires erasure { IsErasure width (length points.now) erased.now had.now.numbers.items }
    requires parities { length had.now.chunks.items ≡ length had.now.numbers.items }
    requires piece_sizes { All (λ piece. IfSome piece (λ bytes. length bytes ≡ chunk)) found.items }
    requires parity_sizes { All (λ bytes. length bytes ≡ chunk) had.now.chunks.items }
    ensures data { IfOk result (λ chunks. IsDataList (length found.items) chunk chunks.items) }
    ensures only { IfOk result (λ chunks. (list : List (List ℕ))
        → Agrees (record {
          points = points.now;
          width = width;
          erased = erased.now;
          parities = had.now.numbers.items;
        }) chunk found.items had.now.chunks.items list
        → list ≡ chunks.items) }
{
    if erased.is_empty() {
        return fill_gaps(alloc, found.as_slice(), &[]);
    }
    let plan = kept_plan(alloc, cache, points, width, erased, had.numbers.as_slice())?;
    let decoded = apply(alloc, &plan, chunk, found.as_slice(), had.chunks.as_slice());
    cache.keep(plan);
    let lists = decoded?;
    let fillings = chunks_of(alloc, lists)?;
    fill_gaps(alloc, found.as_slice(), fillings.as_slice())
}

// The plan of a decodable stripe: the one that the cache keeps, or one that is made.
fn kept_plan(
    alloc: Global,
    cache: &mut PlanCache,
    points: &[u8],
    width: u32,
    erased: &[u32],
    parities: &[u32],
) -> Result<DecodePlan, Memory>
    requires width { (1 ≤ width) × (width ≤ 64) }
    requires points { length points.now ≤ 4 }
    requires decodable { IsDecodable points.now width }
    requires erasure { IsErasure width (length points.now) erased.now parities.now }
    ensures { IfOk result
        (λ plan. plan
        ≡ record {
          points = points.now;
          width = width;
          erased = erased.now;
          parities = parities.now;
        }) }
{
    match cache.take(points, width, erased, parities) {
        Some(plan) => Ok(plan),
        None => sure_plan(alloc, points, width, erased, parities),
    }
}

// The plan of a decodable stripe, which always has one.
fn sure_plan(
    alloc: Global,
    points: &[u8],
    width: u32,
    erased: &[u32],
    parities: &[u32],
) -> Result<DecodePlan, Memory>
    requires width { (1 ≤ width) × (width ≤ 64) }
    requires points { length points.now ≤ 4 }
    requires decodable { IsDecodable points.now width }
    requires erasure { IsErasure width (length points.now) erased.now parities.now }
    ensures { IfOk result
        (λ plan. plan
        ≡ record {
          points = points.now;
          width = width;
          erased = erased.now;
          parities = parities.now;
        }) }
{
    match plan(alloc, points, width, erased, parities) {
        Ok(plan) => Ok(plan),
        Err(NoPlan::Memory) => Err(AllocError),
        Err(NoPlan::Kernel(_)) => unreachable!(),
    }
}

// A chunk of each list of bytes.
fn chunks_of(alloc: Global, lists: Vec<Vec<u8>>) -> Result<Vec<Chunk>, Memory>
    ensures { IfOk result (λ chunks. chunks.items ≡ rows lists.items) }
{
    let mut chunks = Vec::with_capacity(alloc, lists.len())?;
    for bytes in lists {
        chunks.push(Chunk::new(alloc, bytes)?)?;
    }
    Ok(chunks)
}

// The pieces, with the gaps filled by these chunks in order.
fn fill_gaps(
    alloc: Global,
    found: &[Option<Chunk>],
    fillings: &[Chunk],
) -> Result<Vec<Chunk>, Memory>
    requires { length fillings.now ≡ length (gaps_from 0 found.now) }
    ensures all { IfOk result (λ all. all.items ≡ filled [] found.now fillings.now) }
    ensures bytes { IfOk result (λ _. All (λ piece. IfSome piece
        (λ chunk. All (λ b. b < 256) chunk)) found.now) }
{
    let mut all = Vec::with_capacity(alloc, found.len())?;
    let mut gaps = 0;
    for piece in found {
        match piece {
            Some(chunk) => all.push(shared(chunk)?)?,
            None => {
                all.push(shared(&fillings[gaps])?)?;
                gaps += 1;
            }
        }
    }
    Ok(all)
}
