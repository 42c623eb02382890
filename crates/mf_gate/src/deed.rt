//! What a step on a word does.

use mf_machine::Slot;

/// A step on a word; or the return that ends a birth, a lose, a retake or a drop; or the second try
/// of a drop.
#[derive(Clone, Copy)]
pub(crate) enum Deed {
    Look,
    Pin(Slot, u32),
    Unpin(Slot, u32),
    Close(u32),
    Begin,
    End,
    Publish(u32),
    See(u32),
    Take(u32),
    Give(u32),
    Birth(u32),
    Born(u32),
    Lose(u32, u32),
    Lost(u32, u32),
    Retake(u32),
    Restored(u32),
    Drop(u32),
    DropAgain(u32),
    Dropped(u32),
}
