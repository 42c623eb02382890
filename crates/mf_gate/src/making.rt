//! What a gate is made of.
ghost use Rattle.std.specs.Prelude.{◌≡◌, ℕ, ◌+◌, ◌*◌, ◌<◌, length, slice_index, slice_index_or};
ghost use Rattle.std.specs.Prelude.{false, OnOk, IfOk};
ghost use Rattle.mf_machine.specs.Counts.{truth};
ghost use Rattle.mf_machine.specs.Words.{closed_bit};
ghost use Rattle.mf_vault.specs.declared.answers.Rest.TheVariants as rest;
ghost use Rattle.mf_gate.specs.Resting.{HasWords, HasSlots, IsNameWord, slot_of};

use mf_vault::{Chunk, Memory, Rest};
use std::alloc::Global;

pub(crate) const FREE: u64 = 0;

pub(crate) const NO_PINS: u64 = 0;

pub(crate) const CLOSED: u64 = 0x8000_0000_0000_0000;

pub(crate) const UNBORN: u64 = 0;

pub(crate) const HERE: u64 = 1;

pub(crate) const TAKEN: u64 = 2;

pub(crate) const DROPPED: u64 = 3;

pub(crate) const LOST: u64 = 4;

// The word of a name at rest.
fn name_word(rest: &Rest) -> u64
    ensures { IsNameWord rest.now result }
{
    match rest {
        Rest::Unborn => UNBORN,
        Rest::Here(_) => HERE,
        Rest::Lost(line) => LOST + *line as u64,
        Rest::Dropped => DROPPED,
    }
}

// The words before those of the names.
fn gate_words(alloc: Global, published: u32, closed: &[bool]) -> Result<Vec<u64>, Memory>
    ensures { IfOk result (λ ws. (length ws.items ≡ length closed.now + 2)
        × (slice_index ws.items 0 ≡ published) × (slice_index ws.items 1 ≡ 0)
        × ((g : ℕ) → g < length closed.now → slice_index ws.items (g + 2)
        ≡ closed_bit * truth (slice_index_or closed.now g false))) }
{
    let mut words = Vec::new(alloc);
    words.push(published as u64)?;
    words.push(FREE)?;
    for shut in closed {
        words.push(if *shut { CLOSED } else { NO_PINS })?;
    }
    Ok(words)
}

// The words of a file at rest.
pub(crate) fn words_of(
    alloc: Global,
    published: u32,
    closed: &[bool],
    names: &[Rest],
) -> Result<Vec<u64>, Memory>
    ensures { IfOk result (λ ws. HasWords published closed.now names.now ws.items) }
{
    let mut words = gate_words(alloc, published, closed)?;
    for rest in names {
        words.push(name_word(rest))?;
    }
    Ok(words)
}

// The slot of a name at rest, its chunk shared.
fn share(rest: &Rest) -> Result<Option<Chunk>, Memory>
    ensures { IfOk result (λ slot. slot ≡ slot_of rest.now) }
{
    match rest {
        Rest::Here(chunk) => Ok(Some(chunk.share()?)),
        Rest::Unborn | Rest::Lost(_) | Rest::Dropped => Ok(None),
    }
}

// The slots of a file at rest.
pub(crate) fn slots_of(alloc: Global, names: &[Rest]) -> Result<Vec<Option<Chunk>>, Memory>
    ensures { IfOk result (λ slots. HasSlots names.now slots.items) }
{
    let mut slots = Vec::new(alloc);
    for rest in names {
        slots.push(share(rest)?)?;
    }
    Ok(slots)
}

// What a gate is made of: its words, its slots, and the room for what is left at the end.
#[derive(Drop)]
pub(crate) struct Parts {
    pub(crate) words: Vec<u64>,
    pub(crate) slots: Vec<Option<Chunk>>,
    pub(crate) closed: Vec<bool>,
}

pub(crate) fn parts_of(
    alloc: Global,
    published: u32,
    closed: &[bool],
    names: &[Rest],
) -> Result<Parts, Memory>
    ensures { IfOk result (λ p. HasWords published closed.now names.now p.words.items
        × HasSlots names.now p.slots.items × (length p.closed.items ≡ length closed.now)) }
{
    let words = words_of(alloc, published, closed, names)?;
    let slots = slots_of(alloc, names)?;
    let closed = vec![in alloc; false; closed.len()]?;
    Ok(Parts {
        words,
        slots,
        closed,
    })
}

// Lets go of the chunks. The room stays.
pub(crate) fn empty(names: &mut Vec<Rest>)
    ensures { length names.new.items ≡ length names.old.items }
{
    for n in 0..names.len() {
        names[n] = Rest::Unborn;
    }
}
