//! A file that its only actor repairs and reclaims.
ghost use Rattle.std.specs.Prelude.{◌≡◌, [], IfOk};
ghost use Rattle.mf_plain.specs.Whole.{actor_of};
ghost use Rattle.tests_life.specs.Mendings.{HasLine, IsFileOf, RestsOf};
ghost use Rattle.mf_vault.specs.Conditions.{IsOfFamily};

use crate::stages::{assert_no_row, family, file};
use mf_check::Family;
use mf_convert::{Change, create, remove};
use mf_plain::{Plain, PlainAccess};
use mf_reclaim::{ReclaimOutcome, reclaim};
use mf_repair::{RepairOutcome, repair};
use mf_vault::{Access, Fetch, Io, Losses, Memory, Name, Servers, count_io};
use std::alloc::Global;
use std::test::Fail;

// What a repair is to come to. The lost names have the lines 11, 12 and so on, by the servers that
// lost theirs.
enum Wanted {
    Repaired(u32, u32),
    Lost(&'static [(Name, u32)]),
    Unreachable(Name, u32),
}

// Servers that are emptied in turn, servers that can't be reached (as bits), the outcome, and how
// many pieces, copies, parities, misses, writes and probes there are.
static REPAIRS: [(&[u32], u128, Wanted, [u64; 6]); 8] = [
    // One name a stripe.
    (&[0], 0, Wanted::Repaired(2, 0), [3, 1, 0, 1, 2, 12]),
    // Two, below the tolerance; and three, at it.
    (&[0, 2], 0, Wanted::Repaired(4, 0), [2, 0, 2, 4, 4, 12]),
    (&[0, 2, 4], 0, Wanted::Repaired(6, 0), [2, 0, 2, 6, 6, 12]),
    // Four, above it.
    (
        &[0, 2, 4, 5],
        0,
        Wanted::Lost(&[
            (Name::Data(0), 11),
            (Name::Copy(0, 0), 12),
            (Name::Parity(2, 0, 0), 13),
            (Name::Parity(2, 0, 1), 14),
        ]),
        [1, 0, 0, 4, 0, 6],
    ),
    // Names that can't be reached are skipped, also where nothing is lost.
    (&[], 1, Wanted::Repaired(0, 2), [0, 0, 0, 0, 0, 12]),
    (&[0], 4, Wanted::Repaired(2, 2), [2, 0, 2, 4, 2, 12]),
    // Of a stripe that can't be had, the first name that was found so.
    (
        &[0],
        52,
        Wanted::Unreachable(Name::Copy(0, 0), 2),
        [1, 0, 0, 4, 0, 6],
    ),
    (
        &[0, 2, 4],
        32,
        Wanted::Unreachable(Name::Parity(2, 0, 1), 5),
        [1, 0, 0, 4, 0, 6],
    ),
];

// What rests behind a phase.
fn rest(access: PlainAccess) -> Plain
    ensures { RestsOf (actor_of access).facts result }
{
    access.tells_whole();
    access.finish().0
}

// The file, created.
pub(crate) fn created(
    alloc: Global,
    plain: Plain,
    family: &Family,
    bytes: &[u8],
    losses: &Losses,
) -> Plain
    requires family { IsOfFamily family.now.shape family.now.points plain.book }
    requires file { IsFileOf plain.book bytes.now losses.now plain }
    ensures { IsFileOf plain.book bytes.now losses.now result }
{
    let now = plain.born();
    let mut access = PlainAccess::new(alloc, plain, now, losses);
    let _ = create(alloc, &mut access, family, bytes);
    rest(access)
}

// Empties a server of the file.
fn empty<A: Fetch>(access: &mut A, line: u32, server: u32) -> Result<(), Memory>
    requires { HasLine (A.actor access.old).facts.losses line server }
    ensures { (A.actor access.new).facts ≡ (A.actor access.old).facts }
{
    let names = access.book().names_on(server)?;
    for name in names.as_slice() {
        access.reserve(1)?;
        let _ = access.lose(*name, line);
    }
    Ok(())
}

// The file behind one more lose line.
fn lose(
    alloc: Global,
    plain: Plain,
    losses: &mut Losses,
    line: u32,
    server: u32,
) -> Result<Plain, Memory>
    requires { losses.old ≡ plain.losses }
    ensures { IfOk result (λ lost. IsFileOf plain.book plain.bytes losses.new lost) }
{
    losses.push(line, server)?;
    let now = plain.born();
    let mut access = PlainAccess::new(alloc, plain, now, losses);
    empty(&mut access, line, server)?;
    Ok(rest(access))
}

// The file behind lose lines of these servers, which have the lines 11, 12 and so on.
pub(crate) fn lose_all(
    alloc: Global,
    plain: Plain,
    losses: &mut Losses,
    servers: &[u32],
) -> Result<Plain, Memory>
    requires { losses.old ≡ plain.losses }
    ensures { IfOk result (λ lost. IsFileOf plain.book plain.bytes losses.new lost) }
{
    let mut plain = plain;
    let mut line: u32 = 11;
    for server in servers {
        plain = lose(alloc, plain, losses, line, *server)?;
        line = line.wrapping_add(1);
    }
    Ok(plain)
}

// What a repair comes to where these servers can't be reached, and what it counts.
fn repaired(
    alloc: Global,
    plain: Plain,
    family: &Family,
    losses: &Losses,
    away: Servers,
) -> (RepairOutcome, Io)
    requires family { IsOfFamily family.now.shape family.now.points plain.book }
    requires losses { losses.now ≡ plain.losses }
{
    let now = plain.born();
    let mut access = PlainAccess::new(alloc, plain, now, losses);
    access.cut_off(away);
    let outcome = repair(alloc, &mut access, family);
    (outcome, count_io(access.ledger()))
}

fn numbers(io: Io) -> [u64; 6] {
    [
        io.pieces,
        io.copies,
        io.parities,
        io.misses,
        io.writes,
        io.probes,
    ]
}

// Whether it is what was wanted.
fn is_wanted(outcome: &RepairOutcome, wanted: &Wanted) -> bool {
    match (outcome, wanted) {
        (RepairOutcome::Repaired { restored, skipped }, Wanted::Repaired(r, s)) => {
            restored == r && skipped == s
        }
        (
            RepairOutcome::DataLost {
                g: 0,
                stripe: 0,
                lost,
            },
            Wanted::Lost(names),
        ) => { lost.as_slice() == *names }
        (
            RepairOutcome::Unreachable {
                g: 0,
                stripe: 0,
                name,
                server,
            },
            Wanted::Unreachable(n, s),
        ) => name == n && server == s,
        _ => false,
    }
}

// What a repair of the file comes to behind these lose lines.
fn mended(
    alloc: Global,
    family: &Family,
    servers: &[u32],
    away: Servers,
) -> Result<(RepairOutcome, Io), Memory> {
    let mut losses = Losses::new(alloc);
    let bytes = b"abcd";
    let plain = created(
        alloc,
        file(alloc, family, 1, bytes)?,
        family,
        bytes,
        &losses,
    );
    let plain = lose_all(alloc, plain, &mut losses, servers)?;
    Ok(repaired(alloc, plain, family, &losses, away))
}

fn first_other(alloc: Global) -> Result<Option<usize>, Memory> {
    let family = family(alloc)?;
    for (row, (servers, away, wanted, counts)) in REPAIRS.iter().enumerate() {
        let (outcome, io) = mended(alloc, &family, servers, Servers { bits: *away })?;
        if !is_wanted(&outcome, wanted) || numbers(io) != *counts {
            return Ok(Some(row));
        }
    }
    Ok(None)
}

#[test]
fn repairs_by_what_is_lost_and_away(rt: HostRuntime) -> Result<(), Fail> {
    assert_no_row(&rt, first_other(rt.alloc())?);
    Ok(())
}

// The file, removed, and whether that was done.
fn removed(alloc: Global, plain: Plain, losses: &Losses) -> (Plain, bool)
    requires { losses.now ≡ plain.losses }
    ensures { result.0.losses ≡ losses.now }
{
    let now = plain.born();
    let mut access = PlainAccess::new(alloc, plain, now, losses);
    let done = remove(&mut access) == Change::RemovedNow;
    (rest(access), done)
}

// The file, reclaimed: how many generations were closed, how many names dropped and how many
// generations have pins; and how many entries there are.
fn reclaimed(alloc: Global, plain: Plain, losses: &Losses) -> (Plain, [usize; 4])
    requires { losses.now ≡ plain.losses }
    ensures { result.0.losses ≡ losses.now }
{
    let now = plain.born();
    let mut access = PlainAccess::new(alloc, plain, now, losses);
    let [closed, dropped, pinned] = match reclaim(alloc, &mut access) {
        ReclaimOutcome::Reclaimed {
            closed,
            dropped,
            pinned,
        } => [closed as usize, dropped as usize, pinned.as_slice().len()],
        ReclaimOutcome::Absent => [100, 100, 100],
        ReclaimOutcome::Memory => [200, 200, 200],
    };
    let entries = access.ledger().len();
    (rest(access), [closed, dropped, pinned, entries])
}

// The same of a file that is created and reclaimed; then it is removed, and reclaimed twice.
fn removed_reclaimed(
    alloc: Global,
    family: &Family,
    losses: &Losses,
) -> Result<[[usize; 4]; 3], Memory>
    requires { losses.now ≡ [] }
{
    let plain = file(alloc, family, 1, b"abcd")?;
    let plain = created(alloc, plain, family, b"abcd", losses);
    let (plain, first) = reclaimed(alloc, plain, losses);
    let (plain, done) = removed(alloc, plain, losses);
    if !done {
        return Ok([[300; 4]; 3]);
    }
    let (plain, second) = reclaimed(alloc, plain, losses);
    let (_, third) = reclaimed(alloc, plain, losses);
    Ok([first, second, third])
}

// Of the fourteen names two are unborn: the parities of the second generation.
#[test]
fn reclaims_what_only_closed_generations_hold(rt: HostRuntime) -> Result<(), Fail> {
    let family = family(rt.alloc())?;
    let losses = Losses::new(rt.alloc());
    let plain = file(rt.alloc(), &family, 1, b"abcd")?;
    assert!(rt; reclaimed(rt.alloc(), plain, &losses).1 == [100, 100, 100, 0]);
    let said = removed_reclaimed(rt.alloc(), &family, &losses)?;
    assert!(rt; said == [[0, 0, 0, 0], [2, 12, 0, 16], [0, 0, 0, 16]]);
    Ok(())
}
