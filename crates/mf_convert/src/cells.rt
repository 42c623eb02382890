//! The cells of a new file.
ghost use Rattle.std.specs.Prelude.{◌≡◌, ◌<◌, ◌≤◌, ℕ, List, [], All, IfOk, length, map};
ghost use Rattle.std.specs.List.{range_with_len};
ghost use Rattle.mf_code.specs.Chunks.{chunks};
ghost use Rattle.mf_places.specs.Facts.{BookFacts, chunks_of};
ghost use Rattle.mf_shape.specs.Stages.{width_at};
ghost use Rattle.mf_kernel.specs.Dots.{rows};
ghost use Rattle.mf_vault.specs.Facts.{cell};
ghost use Rattle.mf_vault.specs.Conditions.{IsOfFamily};
ghost use Rattle.mf_convert.specs.Cells.{IsFirst, AreMade, parities_of, first_stripes, rows_of};

use mf_check::Family;
use mf_stripe::{cut, encode, stripe_pieces};
use mf_vault::{Book, Chunk, Memory, Name};
use std::alloc::Global;

/// The cells of these names of the first generation. The only error is want of memory.
pub(crate) fn cells_of(
    alloc: Global,
    book: &Book,
    family: &Family,
    names: &[Name],
    bytes: &[u8],
) -> Result<Vec<Chunk>, Memory>
    requires family { IsOfFamily family.now.shape family.now.points book.now }
    requires bytes { length bytes.now ≡ book.now.bytes }
    requires names { All (IsFirst book.now) names.now }
    ensures { IfOk result (λ cells. cells.items ≡ map (cell book.now bytes.now) names.now) }
{
    let chunks = cut(alloc, bytes, book.chunk())?;
    let parities = stripe_parities(alloc, book, family, &chunks)?;
    let made = Made { chunks, parities };
    let mut cells = Vec::with_capacity(alloc, names.len())?;
    for name in names {
        cells.push(made.cell(*name)?)?;
    }
    Ok(cells)
}

// The chunks of a file, and the parities of each stripe of its first generation.
#[derive(Drop)]
struct Made {
    chunks: Vec<Chunk>,
    parities: Vec<Vec<Chunk>>,
}

impl Made {
    // The cell of a name of the first generation. The only error is want of memory.
    fn cell(&self, name: Name) -> Result<Chunk, Memory>
        requires { (b : BookFacts) × (file : List ℕ) × AreMade b file self.now × IsFirst b name }
        ensures { (b : BookFacts) (file : List ℕ) → AreMade b file self.now → IsFirst b name
            → IfOk result (λ c. c ≡ cell b file name) }
    {
        match name {
            Name::Data(i) => self.chunks.as_slice()[i as usize].share(),
            Name::Copy(_, i) => self.chunks.as_slice()[i as usize].share(),
            Name::Parity(_, j, p) => self
                .parities
                .as_slice()[j as usize].as_slice()[p as usize].share(),
        }
    }
}

// The parities of each stripe of the first generation. The only error is want of memory.
fn stripe_parities(
    alloc: Global,
    book: &Book,
    family: &Family,
    pieces: &[Chunk],
) -> Result<Vec<Vec<Chunk>>, Memory>
    requires family { IsOfFamily family.now.shape family.now.points book.now }
    requires count { length pieces.now ≡ chunks_of book.now }
    requires lengths { All (λ chunk. length chunk ≡ book.now.chunk) pieces.now }
    ensures { (file : List ℕ) → pieces.now ≡ chunks book.now.chunk file → IfOk result
        (λ all. rows_of all.items
        ≡ map (parities_of book.now file) (range_with_len 0 (first_stripes book.now))) }
{
    let width = first_width(family);
    let count = book.stripes(0);
    let mut all = Vec::with_capacity(alloc, count as usize)?;
    for j in 0..count {
        let stripe = stripe_pieces(pieces, width, j);
        let lists = encode(alloc, family.points(), width, book.chunk(), stripe)?;
        all.push(chunks_of(alloc, lists)?)?;
    }
    Ok(all)
}

// The width of the first stage.
fn first_width(family: &Family) -> u32
    ensures value { result ≡ width_at family.now.shape.stages 0 }
    ensures some { 0 < length family.now.shape.stages }
{
    family.shape().stages()[0].width
}

// A chunk of each list of bytes. The only error is want of memory.
fn chunks_of(alloc: Global, lists: Vec<Vec<u8>>) -> Result<Vec<Chunk>, Memory>
    ensures { IfOk result (λ chunks. chunks.items ≡ rows lists.items) }
{
    let mut chunks = Vec::with_capacity(alloc, lists.len())?;
    for bytes in lists {
        chunks.push(Chunk::new(alloc, bytes)?)?;
    }
    Ok(chunks)
}
