//! Commands on one file.

ghost use Rattle.std.specs.Prelude.{◌≡◌, ◌≤◌, length, drop};
ghost use Rattle.mf_machine.specs.declared.answer.Slot.TheVariants.{Work};
ghost use Rattle.mf_places.specs.Servers.{no_servers};
ghost use Rattle.mf_script.specs.Contents.{bytes_in};
ghost use Rattle.mf_vault.specs.Conditions.{IsIdle, IsOfFamily};
ghost use Rattle.mf_client.specs.Acts.{IsCreated, IsReadOut, IsRepaired, IsConverted};
ghost use Rattle.mf_client.specs.Acts.{IsReclaimed, IsRemoved, IsHeld, IsReleased};

use crate::done::Outcome;
use crate::hashing::Hashing;
use mf_convert::{convert, create, remove};
use mf_read::{Family, IntoOutcome, PlanCache, read_into};
use mf_reclaim::reclaim;
use mf_repair::repair;
use mf_script::{Content, content_bytes};
use mf_vault::{Fetch, Pinned, Slot};
use std::alloc::Global;

// Creates the file of this content.
pub(crate) fn create_file<A: Fetch>(
    alloc: Global,
    access: &mut A,
    family: &Family,
    content: &Content,
) -> Outcome
    requires idle { IsIdle (A.actor access.old) }
    requires family { IsOfFamily family.now.shape family.now.points
        (A.actor access.old).facts.book }
    requires bytes { (A.actor access.old).facts.bytes ≡ bytes_in content.now }
    requires reached { (A.actor access.old).cut ≡ no_servers }
    ensures { IsCreated result (A.actor access.old) (A.actor access.new) }
{
    match content_bytes(alloc, content) {
        Ok(bytes) => Outcome::Change(create(alloc, access, family, &bytes)),
        Err(_) => Outcome::Memory,
    }
}

// Reads the file.
pub(crate) fn read_file<A: Fetch>(
    alloc: Global,
    access: &mut A,
    family: &Family,
    plans: &mut PlanCache,
) -> Outcome
    requires idle { IsIdle (A.actor access.old) }
    requires family { IsOfFamily family.now.shape family.now.points
        (A.actor access.old).facts.book }
    ensures { IsReadOut result (A.actor access.old) (A.actor access.new) }
{
    let mut hashing = Hashing::new();
    match read_into(alloc, access, family, plans, &mut hashing) {
        IntoOutcome::Bytes { g, length, from } => Outcome::Bytes {
            g,
            length,
            from,
            digest: hashing.digest(),
        },
        refused => Outcome::Refused(refused.with_bytes(Vec::new(alloc))),
    }
}

// Repairs the file.
pub(crate) fn repair_file<A: Fetch>(alloc: Global, access: &mut A, family: &Family) -> Outcome
    requires idle { IsIdle (A.actor access.old) }
    requires family { IsOfFamily family.now.shape family.now.points
        (A.actor access.old).facts.book }
    ensures { IsRepaired result (A.actor access.old) (A.actor access.new) }
{
    Outcome::Repair(repair(alloc, access, family))
}

// Converts the file to its next stage, unless it is in its last.
pub(crate) fn convert_file<A: Fetch>(
    alloc: Global,
    access: &mut A,
    family: &Family,
    stop: Option<u32>,
) -> Outcome
    requires idle { IsIdle (A.actor access.old) }
    requires family { IsOfFamily family.now.shape family.now.points
        (A.actor access.old).facts.book }
    ensures { IsConverted stop result (A.actor access.old) (A.actor access.new) }
{
    let last = access.book().stages() - 1;
    Outcome::Change(convert(alloc, access, family, last, stop))
}

// Closes what isn't published any more, and drops what only closed generations hold.
pub(crate) fn reclaim_file<A: Fetch>(alloc: Global, access: &mut A) -> Outcome
    requires idle { IsIdle (A.actor access.old) }
    ensures { IsReclaimed result (A.actor access.old) (A.actor access.new) }
{
    Outcome::Reclaim(reclaim(alloc, access))
}

// Removes the file.
pub(crate) fn remove_file<A: Fetch>(access: &mut A) -> Outcome
    requires idle { IsIdle (A.actor access.old) }
    ensures { IsRemoved result (A.actor access.old) (A.actor access.new) }
{
    Outcome::Change(remove(access))
}

// Pins the published generation in the Hold slot, unless one is pinned there.
pub(crate) fn hold_file<A: Fetch>(access: &mut A) -> Outcome
    ensures { IsHeld result (A.actor access.old) (A.actor access.new) }
{
    if let Some(g) = access.pinned(Slot::Hold) {
        return Outcome::AlreadyHeld(g);
    }
    match access.pin(Slot::Hold) {
        Pinned::At(g) => Outcome::Held(g),
        Pinned::Absent => Outcome::HoldAbsent,
        Pinned::Removed => Outcome::HoldRemoved,
    }
}

// Frees the Hold slot, where a generation is pinned there.
pub(crate) fn release_file<A: Fetch>(access: &mut A) -> Outcome
    ensures { IsReleased result (A.actor access.old) (A.actor access.new) }
{
    match access.pinned(Slot::Hold) {
        Some(g) => {
            access.unpin(Slot::Hold);
            Outcome::Released(g)
        }
        None => Outcome::NotHeld,
    }
}
