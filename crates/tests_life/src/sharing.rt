//! Two actors at one file: what one of them can do while the other has the building right, or a
//! pin.
ghost use Rattle.std.specs.Prelude.{◌≡◌};
ghost use Rattle.mf_machine.specs.Actors.{LacksRight};
ghost use Rattle.mf_vault.specs.Conditions.{IsIdle, IsOfFamily, Leaves};

use crate::conversions::{converted, created};
use crate::stages::{family, file};
use mf_check::Family;
use mf_convert::{Change, remove};
use mf_reclaim::{ReclaimOutcome, reclaim};
use mf_repair::{RepairOutcome, repair};
use mf_shared::{Shared, SharedAccess};
use mf_vault::{Access, Fetch, Losses, Memory, Pinned, Slot};
use std::alloc::{AllocError, Global};
use std::sync::Wait;
use std::test::Fail;

// Removes the file, where no other actor builds.
fn removed<A: Fetch>(access: &mut A) -> Change
    requires { IsIdle (A.actor access.old) }
    ensures { Leaves (A.actor access.old) (A.actor access.new) }
{
    remove(access)
}

// Whether the file is reclaimed with so many generations closed and names dropped, and these pins.
fn reclaims<A: Fetch>(
    alloc: Global,
    access: &mut A,
    counts: (u32, u32),
    pins: &[(u32, u32)],
) -> bool
    requires { IsIdle (A.actor access.old) }
    ensures { Leaves (A.actor access.old) (A.actor access.new) }
{
    match reclaim(alloc, access) {
        ReclaimOutcome::Reclaimed {
            closed,
            dropped,
            pinned,
        } => (closed, dropped) == counts && pinned.as_slice() == pins,
        ReclaimOutcome::Absent | ReclaimOutcome::Memory => false,
    }
}

// Whether an actor that is refused the right says so, whatever it would build.
fn is_busy<A: Fetch>(alloc: Global, access: &mut A, family: &Family) -> bool
    requires idle { IsIdle (A.actor access.old) }
    requires family { IsOfFamily family.now.shape family.now.points
        (A.actor access.old).facts.book }
    ensures { Leaves (A.actor access.old) (A.actor access.new) }
{
    converted(alloc, access, family, 1, None) == Some(Change::Busy)
        && matches!(repair(alloc, access, family), RepairOutcome::Busy)
        && removed(access) == Change::Busy
}

// Pins the published generation in the Work slot.
fn pinned<A: Fetch>(access: &mut A) -> Pinned
    requires { IsIdle (A.actor access.old) }
    ensures { LacksRight (A.actor access.new).view.build }
{
    access.pin(Slot::Work)
}

// Whether the file is converted to its second generation, with two parities made.
fn is_converted<A: Fetch>(alloc: Global, access: &mut A, family: &Family) -> bool
    requires idle { IsIdle (A.actor access.old) }
    requires family { IsOfFamily family.now.shape family.now.points
        (A.actor access.old).facts.book }
    ensures { Leaves (A.actor access.old) (A.actor access.new) }
{
    let wanted = Change::Converted {
        from: 0,
        to: 1,
        made: 2,
    };
    converted(alloc, access, family, 1, None) == Some(wanted)
}

// Whether all goes well where the first actor has a pin on the first generation, and the right for
// a while.
fn take_turns<A: Fetch>(alloc: Global, first: &mut A, second: &mut A, family: &Family) -> bool
    requires idle { IsIdle (A.actor first.old) × IsIdle (A.actor second.old) }
    requires family { IsOfFamily family.now.shape family.now.points
        (A.actor second.old).facts.book }
{
    let is_pinned = pinned(first) == Pinned::At(0);
    if !first.begin() {
        return false;
    }
    let is_refused = is_busy(alloc, second, family);
    first.end();
    if !is_converted(alloc, second, family) || !reclaims(alloc, second, (0, 0), &[(0, 1)]) {
        return false;
    }
    if first.pinned(Slot::Work).is_some() {
        first.unpin(Slot::Work);
    }
    is_pinned && is_refused && reclaims(alloc, second, (1, 8), &[])
}

// Whether it is so of two actors of one file; and how many entries there are of each.
fn two_actors<R: Wait>(rt: &R, alloc: Global) -> Result<(bool, usize, usize), Memory> {
    let family = family(alloc)?;
    let plain = file(alloc, &family, 1, b"abcd")?;
    let losses = Losses::new(alloc);
    let Ok((shared, mut seat)) = Shared::of_plain(alloc, plain, 0, &losses) else {
        return Err(AllocError);
    };
    let other = shared.split(&mut seat);
    let mut first = SharedAccess::new(rt, alloc, &shared, seat);
    let mut second = SharedAccess::new(rt, alloc, &shared, other);
    let is_created = created(alloc, &mut second, &family, b"abcd") == Change::Created;
    let is_well = take_turns(alloc, &mut first, &mut second, &family);
    Ok((
        is_created && is_well,
        first.ledger().len(),
        second.ledger().len(),
    ))
}

#[test]
fn two_actors_at_one_file(rt: HostRuntime) -> Result<(), Fail> {
    assert!(rt; two_actors(&rt, rt.alloc())? == (true, 0, 46));
    Ok(())
}
