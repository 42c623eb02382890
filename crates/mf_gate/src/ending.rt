//! What is left of a gate.
ghost use Rattle.std.specs.Prelude.{◌≡◌, ◌≢◌, ℕ, ◌+◌, ◌<◌, ◌≤◌, ◌↔◌, IsTrue, true, false, length};
ghost use Rattle.std.specs.Prelude.{slice_index, slice_index_or, None};
ghost use Rattle.std.specs.Mem.Slots.{slots_items, slots_filled, slots_len, IsFull};
ghost use Rattle.mf_machine.specs.Words.{closed_bit};
ghost use Rattle.mf_vault.specs.declared.answers.Rest.TheVariants as rest;
ghost use Rattle.mf_gate.specs.Resting.{rest_from, IsResting};

use crate::making::{CLOSED, DROPPED, LOST, UNBORN};
use atomic_table::Closed;
use mf_vault::{Chunk, Rest};
use std::alloc::Global;

// A name at rest, from its word and its slot.
fn rest_of(word: u64, slot: Option<Chunk>) -> Rest
    requires { IsResting word slot }
    ensures { result ≡ rest_from word slot }
{
    if word == UNBORN {
        Rest::Unborn
    } else if word == DROPPED {
        Rest::Dropped
    } else if word >= LOST {
        Rest::Lost((word - LOST) as u32)
    } else if let Some(chunk) = slot {
        Rest::Here(chunk)
    } else {
        unreachable!()
    }
}

// Which generations are closed.
pub(crate) fn close_from(ended: &Closed<Option<Chunk>, Global>, closed: &mut Vec<bool>)
    requires { (length closed.old.items + 2 ≤ slots_len ended.now.words) × IsFull ended.now.words }
    ensures long { length closed.new.items ≡ length closed.old.items }
    ensures closed { (g : ℕ) → g < length closed.old.items
        → (slice_index_or closed.new.items g false ≡ true)
        ↔ (closed_bit ≤ slice_index (slots_items ended.now.words) (g + 2)) }
{
    for g in 0..closed.len() {
        closed[g] = ended.word(g + 2) >= CLOSED;
    }
}

// The names at rest, from the words behind the first `before`, and from the slots.
pub(crate) fn rests_from(
    ended: &mut Closed<Option<Chunk>, Global>,
    before: usize,
    names: &mut Vec<Rest>,
)
    requires words { (before + length names.old.items ≤ slots_len ended.old.words)
        × IsFull ended.old.words }
    requires slots { (length names.old.items ≡ slots_len ended.old.slots) × IsFull ended.old.slots }
    requires resting { (n : ℕ) → n < length names.old.items
        → IsResting (slice_index (slots_items ended.old.words) (before + n))
        (slice_index_or (slots_items ended.old.slots) n None) }
    ensures long { length names.new.items ≡ length names.old.items }
    ensures names { (n : ℕ) → n < length names.old.items
        → slice_index_or names.new.items n rest.Unborn
        ≡ rest_from (slice_index (slots_items ended.old.words) (before + n))
        (slice_index_or (slots_items ended.old.slots) n None) }
    ensures taken { (n : ℕ) → n < slots_len ended.new.slots
        → slice_index_or (slots_filled ended.new.slots) n false ≡ false }
{
    for n in 0..names.len() {
        names[n] = rest_of(ended.word(before + n), ended.take(n));
    }
}
