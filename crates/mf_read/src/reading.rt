//! The reader.
ghost use Rattle.std.specs.Prelude.{◌≡◌, ℕ, ◌-◌, ◌*◌, ◌<◌, ◌≤◌, [], length, drop, take};
ghost use Rattle.std.specs.List.{concat};
ghost use Rattle.std.specs.declared.alloc.Global.{Global};
ghost use Rattle.std.specs.declared.vec.Vec.{Vec};
ghost use Rattle.mf_shape.specs.Stages.{width_at};
ghost use Rattle.mf_machine.specs.declared.answer.Slot.TheVariants.{Work};
ghost use Rattle.mf_vault.specs.May.{MayPin};
ghost use Rattle.mf_vault.specs.Conditions.{IsIdle, IsOfFamily, Leaves};
ghost use Rattle.mf_vault.specs.Facts.{stages};
ghost use Rattle.mf_read.specs.Groups.{IsReader, asks_in};
ghost use Rattle.mf_read.specs.Reading.{Reads, bears};
ghost use Rattle.mf_read.specs.Steps.{IsPinned, IsShortOf, LacksNames};
ghost use Rattle.mf_read.specs.Steps.{ReadsStripe, ReadsAll, ReadsAny, bytes_at};
ghost use Rattle.mf_read.specs.Steps.{Hands, HandsStripe, HandsAll, HandsOn};
ghost use Rattle.mf_read.specs.Taking.{ReadsInto, with_bytes};
ghost use Rattle.mf_read.specs.Stripes.{chunks_of_stripe};

use crate::asking::stage;
use crate::gathering::gather_with;
use crate::outcome::{IntoOutcome, ReadOutcome};
use crate::short::short;
use crate::taking::Taker;
use mf_check::Family;
use mf_decode::{Gathered, PlanCache};
use mf_kernel::{Chunk, Memory};
use mf_vault::{Entry, Fetch, Pinned, Slot};
use std::alloc::Global;

// The entries from number `from` on.
fn entries_from(entries: &[Entry], from: usize) -> &[Entry]
    requires { from ≤ length entries.now }
    ensures { result.now ≡ drop from entries.now }
{
    &entries[from..]
}

// What the short asking of stripe j comes to that has the entries from number `from` on.
fn short_from<A: Fetch>(alloc: Global, access: &A, g: u32, j: u32, from: usize) -> IntoOutcome
    requires stage { g < stages (A.actor access.now).facts }
    requires from { from ≤ length (A.actor access.now).entries }
    requires lost { LacksNames g from (A.actor access.now) }
    ensures { (bytes : Vec ℕ Global)
        → IsShortOf (bears (A.actor access.now).facts.book g) g j
        (asks_in (drop from (A.actor access.now).entries)) (with_bytes result bytes) }
{
    let most = access.book().tolerance(g);
    let entries = entries_from(access.ledger(), from);
    short(alloc, most, g, j, entries)
}

// Hands the chunks on, in order, up to `left` bytes.
fn hand_on<T: Taker>(taker: &mut T, chunks: &[Chunk], left: usize) -> Result<(), Memory>
    ensures { Hands (take left (concat chunks.now)) result
        (T.taken taker.old) (T.taken taker.new) }
{
    let mut room = left;
    for chunk in chunks {
        let bytes = chunk.bytes();
        let end = room.min(bytes.len());
        taker.take(&bytes[..end])?;
        room -= end;
    }
    Ok(())
}

// How many bytes of the file lie behind the stripes before stripe j.
fn bytes_left<A: Fetch>(access: &A, g: u32, j: u32) -> usize
    requires stage { g < stages (A.actor access.now).facts }
    ensures { result ≡ length (A.actor access.now).facts.bytes
        - j * width_at (A.actor access.now).facts.book.shape.stages g
        * (A.actor access.now).facts.book.chunk }
{
    let width = stage(access, g).width as usize;
    let chunk = access.book().chunk() as usize;
    let length = access.book().length() as usize;
    length.saturating_sub(j as usize * width * chunk)
}

// Hands the bytes of stripe j of generation g on, which are in these chunks.
fn hand_stripe<A: Fetch, T: Taker>(
    access: &A,
    taker: &mut T,
    chunks: &[Chunk],
    g: u32,
    j: u32,
) -> Result<(), Memory>
    requires stage { g < stages (A.actor access.now).facts }
    requires chunks { chunks.now ≡ chunks_of_stripe (A.actor access.now).facts g j }
    ensures { Hands (bytes_at (A.actor access.now).facts g j) result
        (T.taken taker.old) (T.taken taker.new) }
{
    let left = bytes_left(access, g, j);
    hand_on(taker, chunks, left)
}

// Reads stripe j of generation g. Its bytes are handed on, or the read ends there.
fn read_stripe<A: Fetch, T: Taker>(
    alloc: Global,
    access: &mut A,
    family: &Family,
    cache: &mut PlanCache,
    taker: &mut T,
    g: u32,
    j: u32,
) -> Result<(), IntoOutcome>
    requires family { IsOfFamily family.now.shape family.now.points
        (A.actor access.old).facts.book }
    requires reader { IsReader g j (A.actor access.old) }
    ensures reads { ReadsStripe g j result (A.actor access.old) (A.actor access.new) }
    ensures hands { HandsStripe (bytes_at (A.actor access.old).facts g j) result
        (T.taken taker.old) (T.taken taker.new) }
{
    let from = access.ledger().len();
    match gather_with(alloc, access, family, cache, g, j) {
        Gathered::All(chunks) => match hand_stripe(access, taker, chunks.as_slice(), g, j) {
            Ok(()) => Ok(()),
            Err(_) => Err(IntoOutcome::Memory),
        },
        Gathered::Short => Err(short_from(alloc, access, g, j, from)),
        Gathered::Memory => Err(IntoOutcome::Memory),
    }
}

// Reads all stripes of generation g, or says why the read ended.
fn read_stripes<A: Fetch, T: Taker>(
    alloc: Global,
    access: &mut A,
    family: &Family,
    cache: &mut PlanCache,
    taker: &mut T,
    g: u32,
) -> Result<(), IntoOutcome>
    requires family { IsOfFamily family.now.shape family.now.points
        (A.actor access.old).facts.book }
    requires pinned { IsPinned g (A.actor access.old) }
    ensures reads { ReadsAll g result (A.actor access.old) (A.actor access.new) }
    ensures hands { HandsAll (A.actor access.old).facts result
        (T.taken taker.old) (T.taken taker.new) }
{
    for j in 0..access.book().stripes(g) {
        if let Err(outcome) = read_stripe(alloc, access, family, cache, taker, g, j) {
            return Err(outcome);
        }
    }
    Ok(())
}

// Reads generation g, which is pinned.
fn read_generation<A: Fetch, T: Taker>(
    alloc: Global,
    access: &mut A,
    family: &Family,
    cache: &mut PlanCache,
    taker: &mut T,
    g: u32,
) -> IntoOutcome
    requires family { IsOfFamily family.now.shape family.now.points
        (A.actor access.old).facts.book }
    requires pinned { IsPinned g (A.actor access.old) }
    ensures reads { ReadsAny g result (A.actor access.old) (A.actor access.new) }
    ensures hands { HandsOn (A.actor access.old).facts result
        (T.taken taker.old) (T.taken taker.new) }
{
    match read_stripes(alloc, access, family, cache, taker, g) {
        Ok(()) => IntoOutcome::Bytes {
            g,
            length: access.book().length(),
            from: access.book().chunks(),
        },
        Err(outcome) => outcome,
    }
}

/// Reads the file, through the generation that is pinned in the Hold slot, or else through the
/// published one, which the Work slot pins meanwhile. The bytes are handed on stripe by stripe,
/// each once it is had, out of the chunks that the store keeps.
///
/// Each chunk is asked for in its data and then in its copies, until it is had. Of a stripe of
/// which chunks are missing, parities are asked for until as many are had.
pub fn read_into<A: Fetch, T: Taker>(
    alloc: Global,
    access: &mut A,
    family: &Family,
    cache: &mut PlanCache,
    taker: &mut T,
) -> IntoOutcome
    requires free { MayPin Work (A.actor access.old) }
    requires family { IsOfFamily family.now.shape family.now.points
        (A.actor access.old).facts.book }
    ensures { ReadsInto result (T.taken taker.old) (T.taken taker.new)
        (A.actor access.old) (A.actor access.new) }
{
    if let Some(g) = access.pinned(Slot::Hold) {
        return read_generation(alloc, access, family, cache, taker, g);
    }
    match access.pin(Slot::Work) {
        Pinned::At(g) => {
            let outcome = read_generation(alloc, access, family, cache, taker, g);
            access.unpin(Slot::Work);
            outcome
        }
        Pinned::Absent => IntoOutcome::Absent,
        Pinned::Removed => IntoOutcome::Removed,
    }
}

/// Reads the file like `read_into`, and gives its bytes. It keeps no plans.
pub fn read<A: Fetch>(alloc: Global, access: &mut A, family: &Family) -> ReadOutcome
    requires free { MayPin Work (A.actor access.old) }
    requires family { IsOfFamily family.now.shape family.now.points
        (A.actor access.old).facts.book }
    ensures reads { Reads result (A.actor access.old) (A.actor access.new) }
    ensures leaves { IsIdle (A.actor access.old)
        → Leaves (A.actor access.old) (A.actor access.new) }
{
    let mut bytes = Vec::new(alloc);
    let outcome = read_into(alloc, access, family, &mut PlanCache::none(), &mut bytes);
    outcome.with_bytes(bytes)
}
