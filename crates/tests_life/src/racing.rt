//! Four actors of one file act beside each other, each in a thread, by commands that are drawn.
//! Behind them each read had the file's bytes, each refusal has its cause in what was done, the
//! published numbers that an actor was told never fall, and the file rests as the ledgers tell.
ghost use Rattle.std.specs.Prelude.{◌≡◌, ◌+◌, ◌≤◌, IfOk};
ghost use Rattle.mf_machine.specs.Words.{whole_share};
ghost use Rattle.mf_shared.specs.Seats.{IsOf, view_of};
ghost use Rattle.mf_shared.specs.Shared.{facts_in};
ghost use Rattle.tests_life.specs.Turns.{Follows, IsAble, IsTried, Stays};

use crate::stages::{family, file};
use crate::turns::{Came, Turn, take};
use mf_check::Family;
use mf_convert::Change;
use mf_machine::Closed;
use mf_plain::Parts;
use mf_shared::{Seat, Shared, SharedAccess};
use mf_vault::{Answer, Entry, Fetch, Losses, Memory, Name, Op, Pinned, Rest};
use rand_core::utils::NextWord;
use rand_pcg::Pcg32;
use std::alloc::{AllocError, Global};
use std::sync::Wait;
use std::sync::atomic::{AtomicU64, Ordering};
use std::test::Fail;
use std::thread;
use std::thread::Threads;

const CLIENTS: u32 = 4;

// How many files are raced on, one after the other.
const RACES: u32 = 100;

// How many accesses an actor has, one after the other, and how many commands in each.
const ACCESSES: u32 = 4;

const COMMANDS: u32 = 16;

// The published number of a file that is removed.
const REMOVED: u32 = 3;

// The bytes of the chunks by the numbers of their names: data, copies, the parities of the two
// narrow stripes, and those of the wide one.
static CHUNKS: [u8; 14] = [97, 98, 99, 100, 97, 98, 99, 100, 3, 165, 7, 171, 4, 51];

// A file among actors, and how many of them have begun.
#[derive(Drop)]
struct Race {
    shared: Shared,
    family: Family,
    bytes: Vec<u8>,
    begun: AtomicU64,
    ghost tried: { IsTried family bytes.items (facts_in shared) },
}

// What an actor did: what came of its commands, and the entries of its ledgers.
#[derive(Drop)]
struct Record {
    came: Vec<Came>,
    entries: Vec<Entry>,
}

// The seat of actors behind their commands, and what each of them did.
#[derive(Drop)]
struct Side {
    seat: Seat,
    records: Vec<Record>,
}

// A command that is drawn.
fn draw(draws: &mut Pcg32) -> Turn {
    match draws.next_word() >> 26 {
        0..10 => Turn::Create,
        10..34 => Turn::Read,
        34..38 => Turn::Hold,
        38..42 => Turn::Release,
        42..48 => Turn::Convert,
        48..52 => Turn::Reclaim,
        52..56 => Turn::Lose,
        56..63 => Turn::Repair,
        _ => Turn::Remove,
    }
}

// The commands of an access. What comes of each is kept.
#[tactic(auto, using(crate::proofs::Following::follows_on, crate::proofs::Following::able_on))]
fn act<A: Fetch>(
    alloc: Global,
    access: &mut A,
    family: &Family,
    bytes: &[u8],
    draws: &mut Pcg32,
    came: &mut Vec<Came>,
) -> Result<(), Memory>
    requires { IsAble family.now bytes.now (A.actor access.old) }
    ensures { Follows (A.actor access.old) (A.actor access.new) }
{
    for _ in 0..COMMANDS {
        let turn = draw(draws);
        came.push(take(alloc, access, family, bytes, turn)?)?;
    }
    Ok(())
}

// An access of an actor: its seat behind it.
fn visit<R: Wait>(
    rt: &R,
    alloc: Global,
    race: &Race,
    seat: Seat,
    draws: &mut Pcg32,
    record: &mut Record,
) -> Result<Seat, Memory>
    requires { IsOf seat race.now.shared }
    ensures { IfOk result (λ after. Stays seat after race.now.shared) }
{
    let mut access = SharedAccess::new(rt, alloc, &race.shared, seat);
    let went = act(
        alloc,
        &mut access,
        &race.family,
        &race.bytes,
        draws,
        &mut record.came,
    );
    let (after, entries) = access.finish();
    went?;
    record.entries.extend_from_slice(entries.as_slice())?;
    Ok(after)
}

// Waits a while until all actors have begun, so that they act beside each other.
fn meet(begun: &AtomicU64) {
    begun.fetch_add(1, Ordering::SeqCst);
    for _ in 0..10_000_000 {
        if begun.load(Ordering::SeqCst) >= CLIENTS as u64 {
            break;
        }
    }
}

// What the actor with this number does.
fn run<R: Wait>(
    rt: &R,
    alloc: Global,
    race: &Race,
    number: u32,
    seat: Seat,
) -> Result<Side, AllocError>
    requires { IsOf seat race.now.shared }
    ensures { IfOk result (λ side. Stays seat side.seat race.now.shared) }
{
    let mut draws = Pcg32::new(number as u64, 1);
    let mut record = Record {
        came: Vec::new(alloc),
        entries: Vec::new(alloc),
    };
    meet(&race.begun);
    let mut seat = seat;
    for _ in 0..ACCESSES {
        seat = visit(rt, alloc, race, seat, &mut draws, &mut record)?;
    }
    let mut records = Vec::new(alloc);
    records.push(record)?;
    Ok(Side { seat, records })
}

// Two sides as one.
fn join(shared: &Shared, first: Side, second: Side) -> Result<Side, AllocError>
    requires first { IsOf first.seat shared.now }
    requires second { IsOf second.seat shared.now }
    ensures of { IfOk result (λ side. IsOf side.seat shared.now) }
    ensures share { IfOk result (λ side. (view_of side.seat).share
        ≡ (view_of first.seat).share + (view_of second.seat).share) }
{
    let Side {
        mut seat,
        mut records,
    } = first;
    let Side {
        seat: gone,
        records: more,
    } = second;
    shared.join(&mut seat, gone);
    for record in more {
        records.push(record)?;
    }
    Ok(Side { seat, records })
}

// So many actors, each with a part of the share, and all parts joined.
#[cycle(threads)]
fn run_all<R: Threads + Wait + Sync>(
    rt: &R,
    alloc: Global,
    race: &Race,
    number: u32,
    clients: u32,
    mut seat: Seat,
) -> Result<Side, AllocError>
    requires of { IsOf seat race.now.shared }
    requires share { clients ≤ (view_of seat).share }
    ensures { IfOk result (λ side. Stays seat side.seat race.now.shared) }
{
    if clients < 2 {
        return run(rt, alloc, race, number, seat);
    }
    let other = race.shared.split(&mut seat);
    let half = clients / 2;
    let twice = number.wrapping_mul(2);
    let front = move || -> Result<Side, AllocError>
        requires of { IsOf seat race.now.shared }
        requires share { half ≤ (view_of seat).share }
        ensures { IfOk result (λ side. Stays seat side.seat race.entry.now.shared) }
    { run_all(rt, alloc, race, twice, half, seat) };
    let back = move || -> Result<Side, AllocError>
        requires of { IsOf other race.now.shared }
        requires share { half ≤ (view_of other).share }
        ensures { IfOk result (λ side. Stays other side.seat race.entry.now.shared) }
    { run_all(rt, alloc, race, twice.wrapping_add(1), half, other) };
    let (first, second) = thread::join(rt, front, back);
    join(&race.shared, first?, second?)
}

// How often this came, in all.
fn times_came(records: &[Record], came: Came) -> u32 {
    let mut count: u32 = 0;
    for record in records {
        for other in record.came.as_slice() {
            if *other == came {
                count = count.wrapping_add(1);
            }
        }
    }
    count
}

// How many entries there are like this one, in all ledgers.
fn times_entered(records: &[Record], entry: Entry) -> u32 {
    let mut count: u32 = 0;
    for record in records {
        for other in record.entries.as_slice() {
            if *other == entry {
                count = count.wrapping_add(1);
            }
        }
    }
    count
}

// How often an operation changed the name.
fn times_done(records: &[Record], op: Op, name: Name) -> u32 {
    let answer = Answer::Done;
    times_entered(records, Entry::Chunk { op, name, answer })
}

// Whether a command that came to this had the right.
fn had_right(came: &Came) -> bool {
    match came {
        Came::Changed(change) => *change != Change::Busy,
        Came::Repaired(_, _) => true,
        _ => false,
    }
}

// Whether another actor than this one had the right.
fn others_had_right(records: &[Record], me: usize) -> bool {
    for (i, record) in records.iter().enumerate() {
        if i != me && record.came.as_slice().iter().any(|came| had_right(came)) {
            return true;
        }
    }
    false
}

// Whether what came of an actor's command has its cause in what was done.
fn is_caused(records: &[Record], me: usize, came: Came) -> bool {
    match came {
        Came::Otherwise => false,
        Came::Removed | Came::Changed(Change::Removed) | Came::Held(Some(Pinned::Removed)) => {
            times_came(records, Came::Changed(Change::RemovedNow)) == 1
        }
        Came::Changed(Change::Busy) => others_had_right(records, me),
        Came::Changed(Change::Needs { name, line }) => {
            line == 11 && times_done(records, Op::Lose, name) > 0
        }
        Came::Changed(Change::Exists | Change::Last { .. }) | Came::Read(_, _) => {
            times_came(records, Came::Changed(Change::Created)) == 1
        }
        _ => true,
    }
}

// The published number that an actor was told, where it was told one. A read through a held
// generation tells none.
fn number_of(came: Came, is_held: bool) -> Option<u32> {
    match came {
        Came::Absent | Came::Changed(Change::Absent) | Came::Held(Some(Pinned::Absent)) => Some(0),
        Came::Changed(Change::Created) => Some(1),
        Came::Read(g, _) => { if is_held { None } else { g.checked_add(1) } }
        Came::Held(Some(Pinned::At(g))) => g.checked_add(1),
        Came::Changed(Change::Last { g }) => g.checked_add(1),
        Came::Changed(Change::Converted { to, .. }) => to.checked_add(1),
        Came::Removed
        | Came::Changed(Change::Removed | Change::RemovedNow)
        | Came::Held(Some(Pinned::Removed)) => Some(REMOVED),
        _ => None,
    }
}

// Whether the numbers that an actor was told never fall. Its pins end with each access.
fn never_falls(all: &[Came]) -> bool {
    let mut low = 0;
    let mut is_held = false;
    for (i, came) in all.iter().enumerate() {
        if i % COMMANDS as usize == 0 {
            is_held = false;
        }
        if let Some(number) = number_of(*came, is_held) {
            if number < low {
                return false;
            }
            low = number;
        }
        match came {
            Came::Held(Some(Pinned::At(_))) => is_held = true,
            Came::Released(_) => is_held = false,
            _ => {}
        }
    }
    true
}

// The first actor who was told numbers that fall, or of whom something came without a cause.
fn first_uncaused(records: &[Record]) -> Option<usize> {
    for (me, record) in records.iter().enumerate() {
        if !never_falls(record.came.as_slice()) {
            return Some(me);
        }
        for came in record.came.as_slice() {
            if !is_caused(records, me, *came) {
                return Some(me);
            }
        }
    }
    None
}

// The number that is published behind what was done.
fn number_told(records: &[Record]) -> u32 {
    if times_came(records, Came::Changed(Change::RemovedNow)) > 0 {
        return REMOVED;
    }
    let converted = Change::Converted {
        from: 0,
        to: 1,
        made: 2,
    };
    let created = times_came(records, Came::Changed(Change::Created));
    created.wrapping_add(times_came(records, Came::Changed(converted)))
}

// Whether the name with this number rests as the ledgers tell: a chunk that is here has its bytes.
fn is_as_told(records: &[Record], n: u32, name: Name, rest: &Rest) -> bool {
    let put = times_done(records, Op::Put, name);
    let made = put.wrapping_add(times_done(records, Op::Restore, name));
    let here = made.wrapping_sub(times_done(records, Op::Lose, name));
    let dropped = times_done(records, Op::Discard, name);
    match rest {
        Rest::Unborn => (made, here, dropped) == (0, 0, 0),
        Rest::Here(chunk) => {
            (put, here, dropped) == (1, 1, 0) && chunk.bytes().first() == CHUNKS.get(n as usize)
        }
        Rest::Lost(line) => (put, here, dropped) == (1, 0, 0) && *line == 11,
        Rest::Dropped => put == 1 && here < 2 && dropped == 1,
    }
}

// What rests otherwise than the ledgers tell.
#[derive(Clone, Copy, Debug)]
enum Unlike {
    Number,
    Generation(u32),
    Name(u32),
    Actor(usize),
}

// The first generation that was closed otherwise, or the first name that rests otherwise.
fn first_unlike(records: &[Record], parts: &Parts) -> Option<Unlike> {
    if parts.published != number_told(records) {
        return Some(Unlike::Number);
    }
    for g in 0..parts.book.stages() {
        let closed = Closed::Done;
        let times = times_entered(records, Entry::Close { g, closed });
        let is_closed = parts.closed.as_slice().get(g as usize) == Some(&true);
        if times != is_closed as u32 {
            return Some(Unlike::Generation(g));
        }
    }
    for n in 0..parts.book.count() {
        let name = parts.book.name(n);
        match parts.names.as_slice().get(n as usize) {
            Some(rest) if is_as_told(records, n, name, rest) => {}
            _ => return Some(Unlike::Name(n)),
        }
    }
    first_uncaused(records).map(|me| Unlike::Actor(me))
}

// How many reads had bytes, and how many names were restored and dropped.
fn deeds(records: &[Record]) -> (u32, u32, u32) {
    let mut reads: u32 = 0;
    let mut restored: u32 = 0;
    let mut dropped: u32 = 0;
    for record in records {
        for came in record.came.as_slice() {
            match came {
                Came::Read(_, _) => reads = reads.wrapping_add(1),
                Came::Repaired(names, _) => restored = restored.wrapping_add(*names),
                Came::Reclaimed(_, names, _) => dropped = dropped.wrapping_add(*names),
                _ => {}
            }
        }
    }
    (reads, restored, dropped)
}

// The file of a race, among actors, and the first seat.
fn new_race(alloc: Global) -> Result<(Race, Seat), Memory>
    ensures of { IfOk result (λ t. IsOf t.1 t.0.shared) }
    ensures share { IfOk result (λ t. (view_of t.1).share ≡ whole_share) }
{
    let family = family(alloc)?;
    let bytes = Vec::from_slice(alloc, b"abcd")?;
    let mut losses = Losses::new(alloc);
    losses.push(11, 0)?;
    let plain = file(alloc, &family, 1, &bytes)?;
    let Ok((shared, seat)) = Shared::of_plain(alloc, plain, 7, &losses) else {
        return Err(AllocError);
    };
    let begun = AtomicU64::new(0);
    let race = Race {
        shared,
        family,
        bytes,
        begun,
    };
    Ok((race, seat))
}

// A race with this number: what its actors did, and the parts of the file behind it.
fn run_race<R: Threads + Wait + Sync>(
    rt: &R,
    alloc: Global,
    number: u32,
) -> Result<(Vec<Record>, Parts), Memory> {
    let (race, seat) = new_race(alloc)?;
    let Side { seat, records } = run_all(rt, alloc, &race, number, CLIENTS, seat)?;
    let Race { shared, .. } = race;
    Ok((records, shared.into_plain(seat).apart()))
}

// What rests otherwise behind the first race where something does. The deeds of all are counted.
fn first_other<R: Threads + Wait + Sync>(
    rt: &R,
    alloc: Global,
    all: &mut (u32, u32, u32),
) -> Result<Option<Unlike>, Memory> {
    for number in 0..RACES {
        let (records, parts) = run_race(rt, alloc, number)?;
        let unlike = first_unlike(records.as_slice(), &parts);
        if unlike.is_some() {
            return Ok(unlike);
        }
        let (reads, restored, dropped) = deeds(records.as_slice());
        all.0 = all.0.wrapping_add(reads);
        all.1 = all.1.wrapping_add(restored);
        all.2 = all.2.wrapping_add(dropped);
    }
    Ok(None)
}

#[test]
fn four_actors_leave_each_file_as_their_ledgers_tell(rt: HostRuntime) -> Result<(), Fail> {
    let mut all: (u32, u32, u32) = (0, 0, 0);
    let unlike = first_other(&rt, rt.alloc(), &mut all)?;
    assert!(rt; unlike.is_none(), "{unlike:?}");
    assert!(rt; all.0 > 0 && all.1 > 0 && all.2 > 0);
    Ok(())
}
