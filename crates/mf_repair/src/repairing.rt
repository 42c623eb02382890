//! Repairing a file.
ghost use Rattle.std.specs.Prelude.{◌≡◌, ◌≤◌, length};
ghost use Rattle.mf_vault.specs.Conditions.{IsIdle, IsOfFamily, Leaves};
ghost use Rattle.mf_repair.specs.Repair.{Repairs};
ghost use Rattle.mf_repair.specs.Mending.{IsMender, HasStripe, Stays};
ghost use Rattle.mf_repair.specs.Mending.{RepairsOf, RepairsAll, RepairsStripe};

use crate::counting::{count_restores, count_skips};
use crate::outcome::RepairOutcome;
use crate::probing::probe_stripe;
use crate::restoring::restore_stripe;
use crate::short::{entries_from, short_from};
use mf_check::Family;
use mf_decode::Gathered;
use mf_read::gather_stripe;
use mf_vault::{Fetch, Pinned, Slot};
use std::alloc::Global;

/// Repairs the published generation, stripe by stripe: each name is probed, and where one is lost
/// all data of the stripe is gathered and each name found lost is restored. A name whose server
/// can't be reached is skipped. What was restored before a refusal stays. It is Busy where another
/// actor has the right to build.
pub fn repair<A: Fetch>(alloc: Global, access: &mut A, family: &Family) -> RepairOutcome
    requires idle { IsIdle (A.actor access.old) }
    requires family { IsOfFamily family.now.shape family.now.points
        (A.actor access.old).facts.book }
    ensures licence { Repairs result (A.actor access.old) (A.actor access.new) }
    ensures leaves { Leaves (A.actor access.old) (A.actor access.new) }
{
    if !access.begin() {
        return RepairOutcome::Busy;
    }
    match access.pin(Slot::Work) {
        Pinned::At(g) => {
            let outcome = repair_generation(alloc, access, family, g);
            access.unpin(Slot::Work);
            access.end();
            outcome
        }
        Pinned::Absent => {
            access.end();
            RepairOutcome::Absent
        }
        Pinned::Removed => {
            access.end();
            RepairOutcome::Removed
        }
    }
}

// Repairs generation g, which is pinned.
fn repair_generation<A: Fetch>(
    alloc: Global,
    access: &mut A,
    family: &Family,
    g: u32,
) -> RepairOutcome
    requires mender { IsMender g (A.actor access.old) }
    requires family { IsOfFamily family.now.shape family.now.points
        (A.actor access.old).facts.book }
    ensures repairs { RepairsOf g result (A.actor access.old) (A.actor access.new) }
    ensures stays { Stays (A.actor access.old) (A.actor access.new) }
{
    let from = access.ledger().len();
    match repair_stripes(alloc, access, family, g) {
        Ok(()) => {
            let entries = entries_from(access.ledger(), from);
            RepairOutcome::Repaired {
                restored: count_restores(entries),
                skipped: count_skips(entries),
            }
        }
        Err(outcome) => outcome,
    }
}

// Repairs the stripes of generation g in order, until one ends the repair.
fn repair_stripes<A: Fetch>(
    alloc: Global,
    access: &mut A,
    family: &Family,
    g: u32,
) -> Result<(), RepairOutcome>
    requires mender { IsMender g (A.actor access.old) }
    requires family { IsOfFamily family.now.shape family.now.points
        (A.actor access.old).facts.book }
    ensures repairs { RepairsAll g result (A.actor access.old) (A.actor access.new) }
    ensures stays { Stays (A.actor access.old) (A.actor access.new) }
{
    for j in 0..access.book().stripes(g) {
        if let Err(outcome) = repair_stripe(alloc, access, family, g, j) {
            return Err(outcome);
        }
    }
    Ok(())
}

// Repairs stripe j of generation g, or ends the repair.
fn repair_stripe<A: Fetch>(
    alloc: Global,
    access: &mut A,
    family: &Family,
    g: u32,
    j: u32,
) -> Result<(), RepairOutcome>
    requires mender { IsMender g (A.actor access.old) }
    requires stripe { HasStripe g j (A.actor access.old).facts.book }
    requires family { IsOfFamily family.now.shape family.now.points
        (A.actor access.old).facts.book }
    ensures repairs { RepairsStripe g j result (A.actor access.old) (A.actor access.new) }
    ensures stays { Stays (A.actor access.old) (A.actor access.new) }
{
    let from = access.ledger().len();
    let Ok(lost) = probe_stripe(alloc, access, g, j) else {
        return Err(RepairOutcome::Memory);
    };
    let lost = lost.as_slice();
    if lost.is_empty() {
        return Ok(());
    }
    match gather_stripe(alloc, access, family, g, j) {
        Gathered::All(chunks) => {
            match restore_stripe(alloc, access, family, g, j, lost, chunks.as_slice()) {
                Ok(()) => Ok(()),
                Err(_) => Err(RepairOutcome::Memory),
            }
        }
        Gathered::Short => Err(short_from(alloc, access, g, j, from)),
        Gathered::Memory => Err(RepairOutcome::Memory),
    }
}
