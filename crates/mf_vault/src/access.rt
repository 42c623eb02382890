//! One actor's hold on one file.
ghost use Rattle.std.specs.Prelude.{◌≡◌, ℕ, ◌+◌, ◌<◌, ◌≤◌, List, Option, IfOk};
ghost use Rattle.mf_machine.specs.Actors.{slot_of};
ghost use Rattle.mf_vault.specs.Facts.{age, cell_of, place};
ghost use Rattle.mf_vault.specs.Actor as call;
ghost use Rattle.mf_vault.specs.Actor.{Actor};
ghost use Rattle.mf_vault.specs.Answers.{Goes};
ghost use Rattle.mf_vault.specs.Licence.{IsKept};
ghost use Rattle.mf_vault.specs.May.{MayPin, MayUnpin, MayBegin, MayEnd, MayPublish, MayClose};
ghost use Rattle.mf_vault.specs.May.{MayProbe, MayPut, MayRestore, MayDiscard};

use crate::answers::{Entry, Pinned};
use mf_kernel::{Chunk, Memory};
use mf_machine::{Closed, Slot, State};
use mf_places::{Book, Name, Servers};

/// One actor's hold on one file. None of its calls waits for another actor.
pub trait Access {
    /// The file's facts, what the actor knows, its ledger, its cut-off servers, and the whole state
    /// where the actor is alone.
    ghost actor: { Self → Actor };
    /// How many entries the ledger can still take without memory.
    ghost spare: { Self → ℕ };

    /// The file's book.
    fn book(&self) -> &Book
        ensures { result.now ≡ (actor self.now).facts.book };

    /// The file's age in this phase, in ticks.
    fn age(&self) -> u64
        ensures { result ≡ age (actor self.now).facts };

    /// The ledger: the chunk operations and closings of this actor, in order, each with its answer.
    fn ledger(&self) -> &[Entry]
        ensures { result.now ≡ (actor self.now).entries };

    /// Sets the servers that can't be reached, until it is called again.
    fn cut_off(&mut self, servers: Servers)
        ensures goes { Goes (call.cut_off servers) (actor self.old) (actor self.new) }
        ensures spare { spare self.new ≡ spare self.old };

    /// Pins the published generation in the slot.
    fn pin(&mut self, slot: Slot) -> Pinned
        requires { MayPin slot (actor self.old) }
        ensures goes { (missed : List ℕ)
            × Goes (call.pin slot missed result) (actor self.old) (actor self.new) }
        ensures spare { spare self.new ≡ spare self.old };

    /// The generation that is pinned in the slot, or `None` where the slot is free.
    fn pinned(&self, slot: Slot) -> Option<u32>
        ensures { place result ≡ slot_of slot (actor self.now).view };

    /// Frees the slot.
    fn unpin(&mut self, slot: Slot)
        requires { MayUnpin slot (actor self.old) }
        ensures goes { Goes (call.unpin slot) (actor self.old) (actor self.new) }
        ensures spare { spare self.new ≡ spare self.old };

    /// Takes the building right. It answers false only where the right was held.
    fn begin(&mut self) -> bool
        requires { MayBegin (actor self.old) }
        ensures goes { Goes (call.begin result) (actor self.old) (actor self.new) }
        ensures spare { spare self.new ≡ spare self.old };

    /// Gives the building right back.
    fn end(&mut self)
        requires { MayEnd (actor self.old) }
        ensures goes { Goes call.end (actor self.old) (actor self.new) }
        ensures spare { spare self.new ≡ spare self.old };

    /// Makes room for n more entries in the ledger. After an error, which is want of memory alone,
    /// all is as before.
    fn reserve(&mut self, n: usize) -> Result<(), Memory>
        ensures stays { actor self.new ≡ actor self.old }
        ensures room { IfOk result (λ _. n ≤ spare self.new) }
        ensures spare { spare self.old ≤ spare self.new };

    /// The state of a name.
    fn probe(&mut self, name: Name) -> State
        requires may { MayProbe name (actor self.old) }
        requires room { 0 < spare self.old }
        ensures goes { Goes (call.probe name result) (actor self.old) (actor self.new) }
        ensures spare { spare self.old ≤ spare self.new + 1 };

    /// Brings the cell of an Unborn name.
    fn put(&mut self, name: Name, bytes: Chunk)
        requires may { MayPut name (actor self.old) }
        requires cell { bytes ≡ cell_of (actor self.old).facts name }
        requires room { 0 < spare self.old }
        ensures goes { Goes (call.put name) (actor self.old) (actor self.new) }
        ensures spare { spare self.old ≤ spare self.new + 1 };

    /// Brings the cell of a Lost name again.
    fn restore(&mut self, name: Name, bytes: Chunk)
        requires may { MayRestore name (actor self.old) }
        requires cell { bytes ≡ cell_of (actor self.old).facts name }
        requires room { 0 < spare self.old }
        ensures goes { Goes (call.restore name) (actor self.old) (actor self.new) }
        ensures spare { spare self.old ≤ spare self.new + 1 };

    /// Sets the published number.
    fn publish(&mut self, next: u32)
        requires { MayPublish next (actor self.old) }
        ensures goes { Goes (call.publish next) (actor self.old) (actor self.new) }
        ensures spare { spare self.new ≡ spare self.old };

    /// Closes a generation for good, where it has no pin.
    fn close(&mut self, g: u32) -> Closed
        requires may { MayClose g (actor self.old) }
        requires room { 0 < spare self.old }
        ensures goes { Goes (call.close g result) (actor self.old) (actor self.new) }
        ensures spare { spare self.old ≤ spare self.new + 1 };

    /// Drops a name that only closed generations hold. It answers true exactly where it changed the
    /// name.
    fn discard(&mut self, name: Name) -> bool
        requires may { MayDiscard name (actor self.old) }
        requires room { 0 < spare self.old }
        ensures goes { Goes (call.discard name result) (actor self.old) (actor self.new) }
        ensures spare { spare self.old ≤ spare self.new + 1 };

    /// The facts are those of a file, the actor can act, and where it is alone the whole state
    /// keeps the rule.
    ghost kept: { (s : Self) → IsKept (actor s) };
}
