//! Two actors of one file take turns, and the only actor of a file does the same.
ghost use Rattle.std.specs.Prelude.{◌≡◌, ◌≤◌, ◌++◌, List};
ghost use Rattle.mf_places.specs.declared.losses.LoseLine.{LoseLine};
ghost use Rattle.mf_vault.specs.Conditions.{IsIdle, IsOfFamily};
ghost use Rattle.mf_vault.specs.May.{MayLose};
ghost use Rattle.tests_life.specs.Mendings.{HasLine};
ghost use Rattle.tests_life.specs.Turns.{Follows, IsAble};

use crate::stages::{family, file};
use mf_check::Family;
use mf_convert::{Change, convert, create, remove};
use mf_plain::{Plain, PlainAccess};
use mf_read::{ReadOutcome, read};
use mf_reclaim::{ReclaimOutcome, reclaim};
use mf_repair::{RepairOutcome, repair};
use mf_shared::{Shared, SharedAccess};
use mf_vault::{Access, Fetch, Losses, Memory, Name, Pinned, Servers, Slot};
use std::alloc::{AllocError, Global};
use std::sync::Wait;
use std::test::Fail;

// What an actor does in its turn. Server 0 is the one that is emptied.
#[derive(Clone, Copy)]
pub(crate) enum Turn {
    Create,
    Read,
    Hold,
    Release,
    Convert,
    Reclaim,
    Lose,
    Repair,
    Remove,
}

// What comes of it. A read says from which generation and from how many chunks; a reclaim how many
// generations were closed, how many names dropped, and how many generations have pins. A repair
// that mends nothing is told as a change.
#[derive(Clone, Copy, PartialEq, Eq)]
pub(crate) enum Came {
    Changed(Change),
    Read(u32, u32),
    Absent,
    Removed,
    Held(Option<Pinned>),
    Released(bool),
    Reclaimed(u32, u32, usize),
    Lost(u32),
    Repaired(u32, u32),
    Otherwise,
}

// Whose turn it is, of the first actor (true) and the second; what it does, and what comes of it.
static TURNS: [(bool, Turn, Came); 14] = [
    (true, Turn::Create, Came::Changed(Change::Created)),
    (false, Turn::Read, Came::Read(0, 4)),
    (false, Turn::Hold, Came::Held(Some(Pinned::At(0)))),
    (
        true,
        Turn::Convert,
        Came::Changed(Change::Converted {
            from: 0,
            to: 1,
            made: 2,
        }),
    ),
    (false, Turn::Read, Came::Read(0, 4)),
    (true, Turn::Reclaim, Came::Reclaimed(0, 0, 1)),
    (false, Turn::Release, Came::Released(true)),
    (false, Turn::Reclaim, Came::Reclaimed(1, 8, 0)),
    (true, Turn::Lose, Came::Lost(1)),
    (false, Turn::Read, Came::Read(1, 4)),
    (false, Turn::Repair, Came::Repaired(1, 0)),
    (true, Turn::Remove, Came::Changed(Change::RemovedNow)),
    (false, Turn::Read, Came::Removed),
    (true, Turn::Reclaim, Came::Reclaimed(1, 6, 0)),
];

fn read_as(outcome: ReadOutcome) -> Came {
    match outcome {
        ReadOutcome::Bytes { g, bytes, from } => match bytes.as_slice() {
            [b'a', b'b', b'c', b'd'] => Came::Read(g, from),
            _ => Came::Otherwise,
        },
        ReadOutcome::Absent => Came::Absent,
        ReadOutcome::Removed => Came::Removed,
        _ => Came::Otherwise,
    }
}

fn reclaimed_as(outcome: ReclaimOutcome) -> Came {
    match outcome {
        ReclaimOutcome::Reclaimed {
            closed,
            dropped,
            pinned,
        } => Came::Reclaimed(closed, dropped, pinned.as_slice().len()),
        ReclaimOutcome::Absent => Came::Absent,
        _ => Came::Otherwise,
    }
}

fn repaired_as(outcome: RepairOutcome) -> Came {
    match outcome {
        RepairOutcome::Repaired { restored, skipped } => Came::Repaired(restored, skipped),
        RepairOutcome::Absent => Came::Changed(Change::Absent),
        RepairOutcome::Removed => Came::Changed(Change::Removed),
        RepairOutcome::Busy => Came::Changed(Change::Busy),
        _ => Came::Otherwise,
    }
}

// Creates the file, with all servers in reach.
fn create_file<A: Fetch>(alloc: Global, access: &mut A, family: &Family, bytes: &[u8]) -> Came
    requires { IsAble family.now bytes.now (A.actor access.old) }
    ensures { Follows (A.actor access.old) (A.actor access.new) }
{
    access.cut_off(Servers::none());
    Came::Changed(create(alloc, access, family, bytes))
}

fn convert_file<A: Fetch>(alloc: Global, access: &mut A, family: &Family) -> Came
    requires idle { IsIdle (A.actor access.old) }
    requires family { IsOfFamily family.now.shape family.now.points
        (A.actor access.old).facts.book }
    ensures { Follows (A.actor access.old) (A.actor access.new) }
{
    if access.book().stages() < 2 {
        return Came::Otherwise;
    }
    Came::Changed(convert(alloc, access, family, 1, None))
}

fn remove_file<A: Fetch>(access: &mut A) -> Came
    requires idle { IsIdle (A.actor access.old) }
    ensures { Follows (A.actor access.old) (A.actor access.new) }
{
    Came::Changed(remove(access))
}

fn read_file<A: Fetch>(alloc: Global, access: &mut A, family: &Family) -> Came
    requires idle { IsIdle (A.actor access.old) }
    requires family { IsOfFamily family.now.shape family.now.points
        (A.actor access.old).facts.book }
    ensures { Follows (A.actor access.old) (A.actor access.new) }
{
    read_as(read(alloc, access, family))
}

fn repair_file<A: Fetch>(alloc: Global, access: &mut A, family: &Family) -> Came
    requires idle { IsIdle (A.actor access.old) }
    requires family { IsOfFamily family.now.shape family.now.points
        (A.actor access.old).facts.book }
    ensures { Follows (A.actor access.old) (A.actor access.new) }
{
    repaired_as(repair(alloc, access, family))
}

fn reclaim_file<A: Fetch>(alloc: Global, access: &mut A) -> Came
    requires idle { IsIdle (A.actor access.old) }
    ensures { Follows (A.actor access.old) (A.actor access.new) }
{
    reclaimed_as(reclaim(alloc, access))
}

// Pins the published generation in the Hold slot, where that is free.
fn hold<A: Fetch>(access: &mut A) -> Came
    requires idle { IsIdle (A.actor access.old) }
    ensures { Follows (A.actor access.old) (A.actor access.new) }
{
    if access.pinned(Slot::Hold).is_some() {
        return Came::Held(None);
    }
    Came::Held(Some(access.pin(Slot::Hold)))
}

// Frees the Hold slot, where it is pinned.
fn release<A: Fetch>(access: &mut A) -> Came
    requires idle { IsIdle (A.actor access.old) }
    ensures { Follows (A.actor access.old) (A.actor access.new) }
{
    let is_held = access.pinned(Slot::Hold).is_some();
    if is_held {
        access.unpin(Slot::Hold);
    }
    Came::Released(is_held)
}

// Loses a name by line 11.
fn lose_one<A: Fetch>(access: &mut A, name: Name) -> Result<bool, Memory>
    requires idle { IsIdle (A.actor access.old) }
    requires may { MayLose name 11 (A.actor access.old) }
    ensures { Follows (A.actor access.old) (A.actor access.new) }
{
    access.reserve(1)?;
    Ok(access.lose(name, 11))
}

// Empties server 0.
#[tactic(auto, using(crate::proofs::Following::follows_on))]
fn lose_all<A: Fetch>(access: &mut A) -> Result<u32, Memory>
    requires idle { IsIdle (A.actor access.old) }
    requires line { HasLine (A.actor access.old).facts.losses 11 0 }
    ensures { Follows (A.actor access.old) (A.actor access.new) }
{
    let mut lost: u32 = 0;
    let names = access.book().names_on(0)?;
    for name in names.as_slice() {
        let is_lost = lose_one(access, *name)?;
        lost = lost.wrapping_add(is_lost as u32);
    }
    Ok(lost)
}

// Takes a turn.
pub(crate) fn take<A: Fetch>(
    alloc: Global,
    access: &mut A,
    family: &Family,
    bytes: &[u8],
    turn: Turn,
) -> Result<Came, Memory>
    requires { IsAble family.now bytes.now (A.actor access.old) }
    ensures { Follows (A.actor access.old) (A.actor access.new) }
{
    match turn {
        Turn::Create => Ok(create_file(alloc, access, family, bytes)),
        Turn::Convert => Ok(convert_file(alloc, access, family)),
        Turn::Remove => Ok(remove_file(access)),
        Turn::Read => Ok(read_file(alloc, access, family)),
        Turn::Reclaim => Ok(reclaim_file(alloc, access)),
        Turn::Repair => Ok(repair_file(alloc, access, family)),
        Turn::Hold => Ok(hold(access)),
        Turn::Release => Ok(release(access)),
        Turn::Lose => Ok(Came::Lost(lose_all(access)?)),
    }
}

// One of two actors takes a turn.
fn take_either<A: Fetch>(
    alloc: Global,
    first: &mut A,
    second: &mut A,
    family: &Family,
    bytes: &[u8],
    is_first: bool,
    turn: Turn,
) -> Result<Came, Memory>
    requires first { IsAble family.now bytes.now (A.actor first.old) }
    requires second { IsAble family.now bytes.now (A.actor second.old) }
    ensures first { Follows (A.actor first.old) (A.actor first.new) }
    ensures second { Follows (A.actor second.old) (A.actor second.new) }
{
    if is_first {
        take(alloc, first, family, bytes, turn)
    } else {
        take(alloc, second, family, bytes, turn)
    }
}

// Two actors take the turns of the table: the number of the first turn that went otherwise.
#[tactic(auto, using(crate::proofs::Following::follows_on, crate::proofs::Following::able_on))]
fn by_two<A: Fetch>(
    alloc: Global,
    first: &mut A,
    second: &mut A,
    family: &Family,
    bytes: &[u8],
) -> Result<Option<usize>, Memory>
    requires first { IsAble family.now bytes.now (A.actor first.old) }
    requires second { IsAble family.now bytes.now (A.actor second.old) }
    ensures first { Follows (A.actor first.old) (A.actor first.new) }
    ensures second { Follows (A.actor second.old) (A.actor second.new) }
{
    for (i, (is_first, turn, wanted)) in TURNS.iter().enumerate() {
        let came = take_either(alloc, first, second, family, bytes, *is_first, *turn)?;
        if came != *wanted {
            return Ok(Some(i));
        }
    }
    Ok(None)
}

// One actor takes them all.
#[tactic(auto, using(crate::proofs::Following::follows_on, crate::proofs::Following::able_on))]
fn by_one<A: Fetch>(
    alloc: Global,
    access: &mut A,
    family: &Family,
    bytes: &[u8],
) -> Result<Option<usize>, Memory>
    requires { IsAble family.now bytes.now (A.actor access.old) }
    ensures { Follows (A.actor access.old) (A.actor access.new) }
{
    for (i, (_, turn, wanted)) in TURNS.iter().enumerate() {
        let came = take(alloc, access, family, bytes, *turn)?;
        if came != *wanted {
            return Ok(Some(i));
        }
    }
    Ok(None)
}

// The turns of the only actor: the first one that went otherwise, the published number that is
// left, and how many entries there are.
fn alone(
    alloc: Global,
    plain: Plain,
    now: u64,
    losses: &Losses,
    family: &Family,
    bytes: &[u8],
) -> Result<(Option<usize>, u32, usize), Memory>
    requires since { plain.born ≤ now }
    requires lines { (more : List LoseLine) × (losses.now ≡ plain.losses ++ more) }
    requires family { IsOfFamily family.now.shape family.now.points plain.book }
    requires bytes { plain.bytes ≡ bytes.now }
    requires line { HasLine losses.now 11 0 }
{
    let mut access = PlainAccess::new(alloc, plain, now, losses);
    let other = by_one(alloc, &mut access, family, bytes)?;
    let (plain, ledger) = access.finish();
    Ok((other, plain.published(), ledger.len()))
}

// The same of two actors.
fn by_shares<R: Wait>(
    rt: &R,
    alloc: Global,
    plain: Plain,
    now: u64,
    losses: &Losses,
    family: &Family,
    bytes: &[u8],
) -> Result<(Option<usize>, u32, usize), Memory>
    requires since { plain.born ≤ now }
    requires lines { (more : List LoseLine) × (losses.now ≡ plain.losses ++ more) }
    requires family { IsOfFamily family.now.shape family.now.points plain.book }
    requires bytes { plain.bytes ≡ bytes.now }
    requires line { HasLine losses.now 11 0 }
{
    let Ok((shared, mut first)) = Shared::of_plain(alloc, plain, now, losses) else {
        return Err(AllocError);
    };
    let second = shared.split(&mut first);
    let mut one = SharedAccess::new(rt, alloc, &shared, first);
    let mut other = SharedAccess::new(rt, alloc, &shared, second);
    let went = by_two(alloc, &mut one, &mut other, family, bytes)?;
    let (mut first, entries) = one.finish();
    let (second, more) = other.finish();
    shared.join(&mut first, second);
    let plain = shared.into_plain(first);
    let count = entries.len().saturating_add(more.len());
    Ok((went, plain.published(), count))
}

// The only actor takes the turns.
fn alone_of(alloc: Global, losses: &Losses) -> Result<(Option<usize>, u32, usize), Memory>
    requires { HasLine losses.now 11 0 }
{
    let family = family(alloc)?;
    let plain = file(alloc, &family, 1, b"abcd")?;
    alone(alloc, plain, 7, losses, &family, b"abcd")
}

// Two actors take the turns.
fn shared_of<R: Wait>(
    rt: &R,
    alloc: Global,
    losses: &Losses,
) -> Result<(Option<usize>, u32, usize), Memory>
    requires { HasLine losses.now 11 0 }
{
    let family = family(alloc)?;
    let plain = file(alloc, &family, 1, b"abcd")?;
    by_shares(rt, alloc, plain, 7, losses, &family, b"abcd")
}

#[test]
fn two_actors_and_the_only_one_take_the_same_turns(rt: HostRuntime) -> Result<(), Fail> {
    let mut losses = Losses::new(rt.alloc());
    losses.push(11, 0)?;
    assert!(rt; alone_of(rt.alloc(), &losses)? == (None, 3, 89));
    assert!(rt; shared_of(&rt, rt.alloc(), &losses)? == (None, 3, 89));
    Ok(())
}
