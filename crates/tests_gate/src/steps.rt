//! What eight threads leave of a file is what they counted.
use crate::making::new_site;
use crate::racing::{NAMES, Race, Side, THREADS, run_all};
use crate::site::{CHUNKS, line_of};
use crate::stepping::cells;
use crate::tally::Tally;
use mf_vault::{Book, Rest};
use std::alloc::{AllocError, Global};
use std::sync::atomic::AtomicU64;
use std::test::Fail;
use std::thread::Threads;

// The published number of a file that is removed.
const REMOVED: u32 = 4;

// How often the name was lost, restored and dropped.
fn counts(tally: &Tally, n: usize) -> Option<(u32, u32, u32)> {
    let lost = tally.lost.as_slice().get(n)?;
    let restored = tally.restored.as_slice().get(n)?;
    let dropped = tally.dropped.as_slice().get(n)?;
    Some((*lost, *restored, *dropped))
}

// Whether the name rests as these counts say. One that is here has its bytes, a lost one has the
// line of its server, and a dropped one was here or lost before.
fn is_as_counted(n: usize, server: u32, rest: &Rest, counted: (u32, u32, u32)) -> bool {
    let (lost, restored, dropped) = counted;
    let away = lost.checked_sub(restored);
    match rest {
        Rest::Unborn => false,
        Rest::Here(chunk) => {
            (away, dropped) == (Some(0), 0) && chunk.bytes().first() == CHUNKS.get(n)
        }
        Rest::Lost(line) => (away, dropped) == (Some(1), 0) && *line == line_of(server),
        Rest::Dropped => matches!(away, Some(0 | 1)) && dropped == 1,
    }
}

// The first name that rests otherwise.
fn first_unlike(tally: &Tally, servers: &[u32], names: &[Rest]) -> Option<usize> {
    for (n, rest) in names.iter().enumerate() {
        let is_like = match (servers.get(n), counts(tally, n)) {
            (Some(server), Some(counted)) => is_as_counted(n, *server, rest, counted),
            _ => false,
        };
        if !is_like {
            return Some(n);
        }
    }
    None
}

// The server of each name.
fn servers_of(alloc: Global, book: &Book) -> Result<Vec<u32>, AllocError> {
    let mut servers = Vec::new(alloc);
    for n in 0..book.count() {
        servers.push(book.server(book.name(n)))?;
    }
    Ok(servers)
}

fn sum(counts: &[u32]) -> u32 {
    counts
        .iter()
        .fold(0, |sum: u32, count| sum.wrapping_add(*count))
}

// The first thing at rest that the threads counted otherwise, or that they should have met.
fn first_other(
    tally: &Tally,
    servers: &[u32],
    number: u32,
    closed: &[bool],
    names: &[Rest],
) -> Option<&'static str> {
    if number != REMOVED || tally.published.as_slice() != [0, 0, 1, 1, 1].as_slice() {
        return Some("number");
    }
    let shut = closed.iter().map(|shut| *shut as u32);
    if !shut.eq(tally.closed.as_slice().iter().copied()) {
        return Some("generation");
    }
    if names.len() != NAMES as usize || first_unlike(tally, servers, names).is_some() {
        return Some("name");
    }
    if tally.wrong > 0 || tally.right == 0 || tally.missed == 0 {
        return Some("take");
    }
    if sum(tally.restored.as_slice()) == 0 || sum(tally.dropped.as_slice()) == 0 {
        return Some("restore or drop");
    }
    None
}

// The same of a file on which eight threads ran.
fn first_other_behind<R: Threads + Sync>(
    rt: &R,
    alloc: Global,
) -> Result<Option<&'static str>, Fail> {
    let (site, mut pass) = new_site(alloc)?;
    let servers = servers_of(alloc, &site.book)?;
    let cells = cells(alloc, &site, &mut pass)?;
    if cells.len() != 6 {
        return Ok(Some("cell"));
    }
    let begun = AtomicU64::new(0);
    let race = Race { site, cells, begun };
    let Side { pass, tally } = run_all(rt, alloc, &race, 1, THREADS, pass)?;
    let Race { site, .. } = race;
    let (number, closed, names) = site.gate.rest(pass);
    Ok(first_other(&tally, &servers, number, &closed, &names))
}

#[test]
fn eight_threads_leave_the_file_as_they_counted(rt: HostRuntime) -> Result<(), Fail> {
    assert_eq!(rt; first_other_behind(&rt, rt.alloc())?, None);
    Ok(())
}
