//! The cells of a stripe's names, from its chunks.
ghost use Rattle.std.specs.Prelude.{◌≡◌, ◌<◌, ◌*◌, ℕ, List, All, IfOk, length, map, take};
ghost use Rattle.mf_code.specs.Chunks.{parity};
ghost use Rattle.mf_code.specs.Stripes.{stripe};
ghost use Rattle.mf_kernel.specs.Dots.{rows};
ghost use Rattle.mf_places.specs.Facts.{BookFacts};
ghost use Rattle.mf_shape.specs.Stages.{stage_at, width_at, parities_at};
ghost use Rattle.mf_vault.specs.Conditions.{IsOfFamily};
ghost use Rattle.mf_vault.specs.Facts.{cell};
ghost use Rattle.mf_repair.specs.Mending.{HasStripe, IsIn, AreMade};

use mf_check::Family;
use mf_shape::Stage;
use mf_stripe::encode;
use mf_vault::{Book, Chunk, Memory, Name};
use std::alloc::Global;

// The chunks of a stripe, its parities, and the number of its first chunk.
#[derive(Drop)]
struct Made<'a> {
    start: u32,
    chunks: &'a [Chunk],
    parities: Vec<Chunk>,
}

impl Made<'_> {
    // The cell of a name of the stripe. The only error is want of memory.
    fn cell(&self, name: Name) -> Result<Chunk, Memory>
        requires { (b : BookFacts) × (file : List ℕ) × (g : ℕ) × (j : ℕ)
            × AreMade b file g j self.now × IsIn b g j name }
        ensures { (b : BookFacts) (file : List ℕ) (g j : ℕ) → AreMade b file g j self.now
            → IsIn b g j name → IfOk result (λ c. c ≡ cell b file name) }
    {
        match name {
            Name::Data(i) => self.chunks[(i - self.start) as usize].share(),
            Name::Copy(_, i) => self.chunks[(i - self.start) as usize].share(),
            Name::Parity(_, _, p) => self.parities.as_slice()[p as usize].share(),
        }
    }
}

// Stage g of the family.
fn stage(family: &Family, g: u32) -> Stage
    requires { g < length family.now.shape.stages }
    ensures { result ≡ stage_at family.now.shape.stages g }
{
    family.shape().stages()[g as usize]
}

// A chunk of each list of bytes. The only error is want of memory.
fn chunks_of(alloc: Global, lists: Vec<Vec<u8>>) -> Result<Vec<Chunk>, Memory>
    ensures { IfOk result (λ chunks. chunks.items ≡ rows lists.items) }
{
    let mut chunks = Vec::with_capacity(alloc, lists.len())?;
    for bytes in lists {
        chunks.push(Chunk::new(alloc, bytes)?)?;
    }
    Ok(chunks)
}

// The cells of these names of stripe j of generation g, from the stripe's chunks. The only error is
// want of memory.
pub(crate) fn cells_of(
    alloc: Global,
    book: &Book,
    family: &Family,
    g: u32,
    j: u32,
    names: &[Name],
    chunks: &[Chunk],
) -> Result<Vec<Chunk>, Memory>
    requires family { IsOfFamily family.now.shape family.now.points book.now }
    requires stripe { HasStripe g j book.now }
    requires names { All (IsIn book.now g j) names.now }
    requires chunks { (file : List ℕ) × (length file ≡ book.now.bytes)
        × (chunks.now ≡ stripe book.now.chunk file (width_at book.now.shape.stages g) j) }
    ensures { (file : List ℕ) → length file ≡ book.now.bytes
        → chunks.now ≡ stripe book.now.chunk file (width_at book.now.shape.stages g) j
        → IfOk result (λ cells. cells.items ≡ map (cell book.now file) names.now) }
{
    let stage = stage(family, g);
    let points = &family.points()[..stage.parities as usize];
    let lists = encode(alloc, points, stage.width, book.chunk(), chunks)?;
    let made = Made {
        start: j * stage.width,
        chunks,
        parities: chunks_of(alloc, lists)?,
    };
    let mut cells = Vec::with_capacity(alloc, names.len())?;
    for name in names {
        cells.push(made.cell(*name)?)?;
    }
    Ok(cells)
}
