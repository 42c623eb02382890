//! A parity of the next generation, merged from the parities of the same point.
ghost use Rattle.std.specs.Prelude.{◌≡◌, ℕ, ◌+◌, ◌-◌, ◌*◌, ◌<◌, ◌≤◌, true, List, [], ◌∷◌};
ghost use Rattle.std.specs.Prelude.{All, IfOk, IfErr, length, map};
ghost use Rattle.mf_code.specs.Chunks.{parity};
ghost use Rattle.mf_code.specs.Stripes.{narrow_parities};
ghost use Rattle.mf_merge.specs.Merged.{first_length};
ghost use Rattle.mf_shape.specs.Stages.{width_at};
ghost use Rattle.mf_places.specs.Names.{stripes_of};
ghost use Rattle.mf_places.specs.Generations.{holds};
ghost use Rattle.mf_vault.specs.Facts.{cell_of, stages};
ghost use Rattle.mf_vault.specs.Conditions.{IsOfFamily};
ghost use Rattle.mf_convert.specs.Convert.{factor_at, sources, gets};
ghost use Rattle.mf_convert.specs.Converting.{IsInTime, IsConverter, IsNextParity, Cuts, Completes};
ghost use Rattle.mf_convert.specs.Converting.{row_of, TakesIn};

use crate::change::Change;
use crate::course::Course;
use mf_check::Family;
use mf_merge::merge;
use mf_vault::{Book, Chunk, Fetch, Got, Memory, Name};
use std::alloc::Global;

/// Parity p of stripe j of the next generation, merged from what this one has.
pub(crate) fn merged<A: Fetch>(
    alloc: Global,
    access: &mut A,
    family: &Family,
    course: &Course,
    j: u32,
    p: u32,
) -> Result<Chunk, Change>
    requires family { IsOfFamily family.now.shape family.now.points
        (A.actor access.old).facts.book }
    requires converter { IsConverter course.now.from (A.actor access.old) }
    requires time { IsInTime course.now (A.actor access.old) }
    requires parity { IsNextParity (A.actor access.old).facts.book course.now.from j p }
    requires room { factor_at (A.actor access.old).facts.book course.now.from
        ≤ A.spare access.old }
    ensures cell { IfOk result (λ chunk. chunk ≡ cell_of (A.actor access.old).facts (Name.Parity
        (width_at (A.actor access.old).facts.book.shape.stages (course.now.from + 1)) j p)) }
    ensures completes { IfOk result (λ _. Completes course.now (gets (A.actor access.old).facts
        (sources (A.actor access.old).facts.book course.now.from j p))
        (A.actor access.old) (A.actor access.new)) }
    ensures cuts { IfErr result (λ change. Cuts course.now (gets (A.actor access.old).facts
        (sources (A.actor access.old).facts.book course.now.from j p)) change
        (A.actor access.old) (A.actor access.new)) }
    ensures room { IfOk result (λ _. A.spare access.old
        ≤ A.spare access.new + factor_at (A.actor access.old).facts.book course.now.from) }
{
    let width = width_of(access, course.from);
    let (first, end) = taken_in(access.book(), course.from, j);
    let parities = fetch_all(alloc, access, course, width, p, first, end)?;
    let point = family.points()[p as usize];
    match merge_chunk(alloc, point, width, parities.as_slice()) {
        Ok(chunk) => Ok(chunk),
        Err(_) => Err(Change::Memory),
    }
}

// The width of generation g.
fn width_of<A: Fetch>(access: &A, g: u32) -> u32
    requires { g < stages (A.actor access.now).facts }
    ensures value { result ≡ width_at (A.actor access.now).facts.book.shape.stages g }
    ensures within { (1 ≤ result) × (result ≤ 64) }
{
    access.book().shape().stages()[g as usize].width
}

// The first stripe of generation g that stripe j of the next one takes in, and the one behind the
// last that the file has.
fn taken_in(book: &Book, g: u32, j: u32) -> (u32, u32)
    requires next { g + 1 < length book.now.shape.stages }
    requires stripe { j < stripes_of book.now (width_at book.now.shape.stages (g + 1)) }
    ensures { TakesIn book.now g j result.0 result.1 }
{
    let factor = book.shape().factor(g);
    let first = j * factor;
    (first, (first + factor).min(book.stripes(g)))
}

// Parity p of the stripes of this width from `first` up to `end`.
fn fetch_all<A: Fetch>(
    alloc: Global,
    access: &mut A,
    course: &Course,
    width: u32,
    p: u32,
    first: u32,
    end: u32,
) -> Result<Vec<Chunk>, Change>
    requires converter { IsConverter course.now.from (A.actor access.old) }
    requires time { IsInTime course.now (A.actor access.old) }
    requires order { first ≤ end }
    requires held { (i : ℕ) → i < end → holds (A.actor access.old).facts.book course.now.from
        (Name.Parity width i p) ≡ true }
    requires room { end - first ≤ A.spare access.old }
    ensures cells { IfOk result (λ parities. parities.items
        ≡ map (cell_of (A.actor access.old).facts) (row_of width p first (end - first))) }
    ensures completes { IfOk result (λ _. Completes course.now (gets (A.actor access.old).facts
        (row_of width p first (end - first))) (A.actor access.old) (A.actor access.new)) }
    ensures cuts { IfErr result (λ change. Cuts course.now (gets (A.actor access.old).facts
        (row_of width p first (end - first))) change (A.actor access.old) (A.actor access.new)) }
    ensures room { IfOk result (λ _. A.spare access.old ≤ A.spare access.new + (end - first)) }
{
    let Ok(mut parities) = Vec::with_capacity(alloc, (end - first) as usize) else {
        return Err(Change::Memory);
    };
    for i in first..end {
        let parity = fetch(access, course, Name::Parity(width, i, p))?;
        if parities.push(parity).is_err() {
            return Err(Change::Memory);
        }
    }
    Ok(parities)
}

// The chunk of a name of this generation.
fn fetch<A: Fetch>(access: &mut A, course: &Course, name: Name) -> Result<Chunk, Change>
    requires converter { IsConverter course.now.from (A.actor access.old) }
    requires time { IsInTime course.now (A.actor access.old) }
    requires held { holds (A.actor access.old).facts.book course.now.from name ≡ true }
    requires room { 0 < A.spare access.old }
    ensures cell { IfOk result (λ chunk. chunk ≡ cell_of (A.actor access.old).facts name) }
    ensures completes { IfOk result (λ _. Completes course.now
        (gets (A.actor access.old).facts (name ∷ [])) (A.actor access.old) (A.actor access.new)) }
    ensures cuts { IfErr result (λ change. Cuts course.now
        (gets (A.actor access.old).facts (name ∷ [])) change
        (A.actor access.old) (A.actor access.new)) }
    ensures room { A.spare access.old ≤ A.spare access.new + 1 }
{
    course.go_on(access)?;
    match access.get(name) {
        Got::Here(chunk) => Ok(chunk),
        Got::Lost(line) => Err(Change::Needs { name, line }),
        Got::Away(server) => Err(Change::Unreachable { name, server }),
        Got::Memory => Err(Change::Memory),
    }
}

// The parity of a wide stripe, from those of the narrow ones. The only error is want of memory.
fn merge_chunk(alloc: Global, point: u8, width: u32, parities: &[Chunk]) -> Result<Chunk, Memory>
    requires some { 1 ≤ length parities.now }
    requires at_most { length parities.now ≤ 64 }
    requires wide { 1 ≤ width }
    requires narrow { width ≤ 64 }
    requires lengths { All (λ parity. length parity ≡ first_length parities.now) parities.now }
    ensures { (size : ℕ) (file : List ℕ) (factor j : ℕ) → All (λ b. b < 256) file
        → parities.now ≡ narrow_parities size file point width factor j
        → IfOk result (λ chunk. chunk ≡ parity size file point (factor * width) j) }
{
    Chunk::new(alloc, merge(alloc, point, width, parities)?)
}
