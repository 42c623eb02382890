//! What is stored of a name, a slot and a generation, and what it answers.
ghost use Rattle.std.specs.Prelude.{◌≡◌, ◌+◌, ◌*◌, ◌<◌, ◌≤◌};
ghost use Rattle.mf_machine.specs.Actors.{has};
ghost use Rattle.mf_machine.specs.Counts.{truth};
ghost use Rattle.mf_machine.specs.Steps.{see_answer, close_answer, drop_answer, lose_answer};
ghost use Rattle.mf_machine.specs.Words.{closed_bit, removed_of};
ghost use Rattle.mf_places.specs.Names.{HasName, count_of};
ghost use Rattle.mf_places.specs.Numbers.{number_of};
ghost use Rattle.mf_vault.specs.Facts.{place};
ghost use Rattle.mf_vault.specs.Answers.{IsNumber, was_dropped, was_lost};
ghost use Rattle.mf_vault.specs.Resting.{word_of};
ghost use Rattle.mf_plain.specs.Stored.{pinned_hold, pinned_work, freed_hold, freed_work, shut_by};
ghost use Rattle.mf_plain.specs.Stored.{dropped_of, lost_of, IsThere, GotOf};
ghost use Rattle.mf_vault.specs.declared.answers.Rest.TheVariants as rest;

use mf_vault::{Book, Closed, Got, Name, Pinned, Rest, Slot, State};

/// The number of a name that the file has.
pub(crate) fn place_of(book: &Book, name: Name) -> usize
    requires { HasName book.now name }
    ensures value { result ≡ number_of book.now name }
    ensures low { result < count_of book.now }
{
    let Some(n) = book.number(name) else {
        unreachable!()
    };
    n as usize
}

/// What a number tells a pin of a file of so many stages.
pub(crate) fn pinned_by(number: u32, stages: u32) -> Pinned
    requires { number ≤ removed_of stages }
    ensures { IsNumber stages result number }
{
    if number == 0 {
        return Pinned::Absent;
    }
    if number > stages {
        return Pinned::Removed;
    }
    Pinned::At(number - 1)
}

/// The Hold slot and the Work slot after a pin.
pub(crate) fn hold_after(slot: Slot, pinned: Pinned, hold: Option<u32>) -> Option<u32>
    ensures { result ≡ pinned_hold slot pinned hold }
{
    match (slot, pinned) {
        (Slot::Hold, Pinned::At(g)) => Some(g),
        _ => hold,
    }
}

pub(crate) fn work_after(slot: Slot, pinned: Pinned, work: Option<u32>) -> Option<u32>
    ensures { result ≡ pinned_work slot pinned work }
{
    match (slot, pinned) {
        (Slot::Work, Pinned::At(g)) => Some(g),
        _ => work,
    }
}

/// The same after an unpin.
pub(crate) fn hold_without(slot: Slot, hold: Option<u32>) -> Option<u32>
    ensures { result ≡ freed_hold slot hold }
{
    match slot {
        Slot::Hold => None,
        Slot::Work => hold,
    }
}

pub(crate) fn work_without(slot: Slot, work: Option<u32>) -> Option<u32>
    ensures { result ≡ freed_work slot work }
{
    match slot {
        Slot::Hold => work,
        Slot::Work => None,
    }
}

/// The answer of a close of a generation with so many pins.
pub(crate) fn close_by(shut: bool, pins: u32) -> Closed
    requires { pins ≤ 2 }
    ensures { result ≡ close_answer (closed_bit * truth shut + pins) }
{
    if shut {
        return Closed::Already;
    }
    if pins == 0 {
        return Closed::Done;
    }
    Closed::Pins(pins)
}

/// Whether the generation is closed after that answer.
pub(crate) fn shut_after(closed: Closed, shut: bool) -> bool
    ensures { result ≡ shut_by closed shut }
{
    match closed {
        Closed::Done => true,
        Closed::Pins(_) => shut,
        Closed::Already => shut,
    }
}

pub(crate) fn state_of(state: &Rest) -> State
    ensures { result ≡ see_answer (word_of state.now) }
{
    match state {
        Rest::Unborn => State::Unborn,
        Rest::Here(_) => State::Here,
        Rest::Lost(line) => State::Lost(*line),
        Rest::Dropped => State::Here,
    }
}

/// The chunk of a name that is Here or Lost.
pub(crate) fn got_of(state: &Rest) -> Got
    requires { IsThere state.now }
    ensures { GotOf state.now result }
{
    match state {
        Rest::Here(chunk) => match chunk.share() {
            Ok(chunk) => Got::Here(chunk),
            Err(_) => Got::Memory,
        },
        Rest::Lost(line) => Got::Lost(*line),
        Rest::Unborn => unreachable!(),
        Rest::Dropped => unreachable!(),
    }
}

/// Drops what is Here or Lost, and answers whether it was.
pub(crate) fn drop_rest(state: &mut Rest) -> bool
    ensures answer { result ≡ was_dropped (drop_answer (word_of state.old)) }
    ensures value { state.new ≡ dropped_of state.old }
{
    match state {
        Rest::Here(_) => {}
        Rest::Lost(_) => {}
        Rest::Unborn => return false,
        Rest::Dropped => return false,
    }
    *state = Rest::Dropped;
    true
}

/// Loses what is Here, and answers whether it was.
pub(crate) fn lose_rest(state: &mut Rest, line: u32) -> bool
    ensures answer { was_lost result ≡ lose_answer (word_of state.old) }
    ensures value { state.new ≡ lost_of line state.old }
{
    match state {
        Rest::Here(_) => {}
        Rest::Lost(_) => return false,
        Rest::Unborn => return false,
        Rest::Dropped => return false,
    }
    *state = Rest::Lost(line);
    true
}

/// 1 where the slot is on the generation.
pub(crate) fn pin_of(slot: Option<u32>, g: u32) -> u32
    ensures value { result ≡ has g (place slot) }
    ensures low { result ≤ 1 }
{
    match slot {
        Some(pinned) if pinned == g => 1,
        _ => 0,
    }
}
