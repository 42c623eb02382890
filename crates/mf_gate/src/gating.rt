//! The steps of the gate pass: on the published number, the right and the pins.
ghost use Rattle.std.specs.Prelude.{◌≡◌, ℕ, ◌<◌, ◌≤◌};
ghost use Rattle.mf_machine.specs.Actors.{SawShut};
ghost use Rattle.mf_machine.specs.File.{removed};
ghost use Rattle.mf_machine.specs.Words.{number_of};
ghost use Rattle.mf_machine.specs.Steps.{MayLook, MayPin, MayUnpin, MayClose, MayBegin, MayEnd};
ghost use Rattle.mf_machine.specs.Steps.{MayPublish, look_row, pin_row, unpin_row, close_row};
ghost use Rattle.mf_machine.specs.Steps.{begin_row, end_row, publish_row, pin_answer, close_answer};
ghost use Rattle.mf_machine.specs.Steps.{begin_answer};
ghost use Rattle.mf_gate.specs.Passes.{IsAt, Steps, file, view};

use crate::deed::Deed;
use crate::gate::{Gate, Pass};
use mf_machine::{Closed, Slot};

const FREE: u64 = 0;

const HELD: u64 = 1;

const NO_PINS: u64 = 0;

const CLOSED: u64 = 0x8000_0000_0000_0000;

impl Gate {
    /// Looks at the published number. It isn't below one that this actor has seen.
    pub fn look(&self, pass: &mut Pass) -> u32
        requires at { IsAt pass.old self.now }
        requires may { MayLook (view pass.old) }
        ensures at { IsAt pass.new self.now }
        ensures row { Steps look_row result pass.old pass.new }
        ensures range { ((view pass.old).seen.number ≤ result)
            × (result ≤ removed (file pass.old)) }
        ensures beyond { (g : ℕ) → g < (file pass.old).stages → SawShut g (view pass.old)
            → number_of g < result }
    {
        self.load(&mut pass.place, Deed::Look) as u32
    }

    /// Pins a generation in the slot. It answers false exactly where the generation was closed.
    pub fn pin(&self, pass: &mut Pass, slot: Slot, g: u32) -> bool
        requires at { IsAt pass.old self.now }
        requires may { MayPin (file pass.old) slot g (view pass.old) }
        ensures at { IsAt pass.new self.now }
        ensures row { (x : ℕ) × Steps (pin_row slot g) x pass.old pass.new
            × (result ≡ pin_answer x) }
    {
        self.add(&mut pass.place, Deed::Pin(slot, g)) < CLOSED
    }

    /// Frees the slot, in which this generation is pinned.
    pub fn unpin(&self, pass: &mut Pass, slot: Slot, g: u32)
        requires at { IsAt pass.old self.now }
        requires may { MayUnpin (file pass.old) slot g (view pass.old) }
        ensures at { IsAt pass.new self.now }
        ensures row { (x : ℕ) × Steps (unpin_row slot g) x pass.old pass.new }
    {
        self.subtract(&mut pass.place, Deed::Unpin(slot, g));
    }

    /// Closes a generation for good, where it has no pin.
    pub fn close(&self, pass: &mut Pass, g: u32) -> Closed
        requires at { IsAt pass.old self.now }
        requires may { MayClose (file pass.old) g (view pass.old) }
        ensures at { IsAt pass.new self.now }
        ensures row { (x : ℕ) × Steps (close_row g) x pass.old pass.new
            × (result ≡ close_answer x) }
    {
        let met = self.change(&mut pass.place, Deed::Close(g), NO_PINS, CLOSED);
        if met == NO_PINS {
            Closed::Done
        } else if met < CLOSED {
            Closed::Pins(met as u32)
        } else {
            Closed::Already
        }
    }

    /// Takes the building right. It answers false exactly where the right was held.
    pub fn begin(&self, pass: &mut Pass) -> bool
        requires at { IsAt pass.old self.now }
        requires may { MayBegin (view pass.old) }
        ensures at { IsAt pass.new self.now }
        ensures row { (x : ℕ) × Steps begin_row x pass.old pass.new × (result ≡ begin_answer x) }
    {
        self.change(&mut pass.place, Deed::Begin, FREE, HELD) == FREE
    }

    /// Gives the building right back.
    pub fn end(&self, pass: &mut Pass)
        requires at { IsAt pass.old self.now }
        requires may { MayEnd (view pass.old) }
        ensures at { IsAt pass.new self.now }
        ensures row { (x : ℕ) × Steps end_row x pass.old pass.new }
    {
        self.set(&mut pass.place, Deed::End, FREE);
    }

    /// Sets the published number.
    pub fn publish(&self, pass: &mut Pass, next: u32)
        requires at { IsAt pass.old self.now }
        requires may { MayPublish (file pass.old) next (view pass.old) }
        ensures at { IsAt pass.new self.now }
        ensures row { (x : ℕ) × Steps (publish_row next) x pass.old pass.new }
    {
        self.set(&mut pass.place, Deed::Publish(next), next as u64);
    }
}
