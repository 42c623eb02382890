//! From a seat to an access, and back.
ghost use Rattle.std.specs.Prelude.{◌≡◌};
ghost use Rattle.mf_machine.specs.Actors.{Free, slot_of};
ghost use Rattle.mf_machine.specs.Counts.{truth};
ghost use Rattle.mf_machine.specs.Steps.{unpinned};
ghost use Rattle.mf_vault.specs.Facts.{place};
ghost use Rattle.mf_vault.specs.Licence.{erased};
ghost use Rattle.mf_gate.specs.Passes.{IsAt, view};
ghost use Rattle.mf_shared.specs.declared.shared.Shared.{Shared};
ghost use Rattle.mf_shared.specs.Seats.{IsOf, entering, given_back, let_go, view_of};
ghost use Rattle.mf_shared.specs.Shared.{facts_in};
ghost use Rattle.mf_shared.specs.Whole.{told_by};

use crate::access::SharedAccess;
use crate::seat::Seat;
use crate::shared::Shared;
use mf_gate::{Gate, Pass};
use mf_vault::{Entry, Servers, Slot};
use std::alloc::Global;

impl<'a, R> SharedAccess<'a, R> {
    /// The access of this seat's actor.
    pub fn new(rt: &'a R, alloc: Global, shared: &'a Shared, seat: Seat) -> SharedAccess<'a, R>
        requires { IsOf seat shared.now }
        ensures { told_by result ≡ entering (facts_in shared.now) (view_of seat) }
    {
        let Seat { pass } = seat;
        SharedAccess {
            rt,
            shared,
            pass,
            hold: None,
            work: None,
            right: false,
            cut: Servers::none(),
            ledger: Vec::new(alloc),
        }
    }

    /// The seat again, with pins and right given back, and the ledger. The seat is of each file
    /// that has the facts of this access.
    pub fn finish(self) -> (Seat, Vec<Entry>)
        ensures of { (s : Shared) → facts_in s ≡ (told_by self.entry).facts → IsOf result.0 s }
        ensures view { view_of result.0 ≡ let_go (told_by self.entry).view }
        ensures ledger { result.1.items ≡ (told_by self.entry).entries }
    {
        let SharedAccess {
            rt: _,
            shared,
            mut pass,
            hold,
            work,
            right,
            cut: _,
            ledger,
        } = self;
        free_slot(&shared.gate, &mut pass, Slot::Hold, hold);
        free_slot(&shared.gate, &mut pass, Slot::Work, work);
        give_back(&shared.gate, &mut pass, right);
        (Seat { pass }, ledger)
    }
}

// Frees the slot, where a generation is pinned in it.
fn free_slot(gate: &Gate, pass: &mut Pass, slot: Slot, pinned: Option<u32>)
    requires at { IsAt pass.old gate.now }
    requires free { Free (view pass.old) }
    requires pinned { slot_of slot (view pass.old) ≡ place pinned }
    ensures at { IsAt pass.new gate.now }
    ensures free { Free (view pass.new) }
    ensures view { erased (view pass.new) ≡ unpinned slot (erased (view pass.old)) }
{
    if let Some(g) = pinned {
        gate.unpin(pass, slot, g);
    }
}

// Gives the right back, where the actor has it.
fn give_back(gate: &Gate, pass: &mut Pass, right: bool)
    requires at { IsAt pass.old gate.now }
    requires free { Free (view pass.old) }
    requires right { (view pass.old).build.right ≡ truth right }
    ensures at { IsAt pass.new gate.now }
    ensures free { Free (view pass.new) }
    ensures view { erased (view pass.new) ≡ given_back (erased (view pass.old)) }
{
    if right {
        gate.end(pass);
    }
}
