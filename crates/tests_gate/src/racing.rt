//! Eight threads make random steps on one gate.
ghost use Rattle.std.specs.Prelude.{◌≡◌, ◌+◌, ◌≤◌, IfOk};
ghost use Rattle.mf_gate.specs.Passes.{view};
ghost use Rattle.tests_gate.specs.Frames.{AreCells, IsPlaced, Moves};

use crate::draws::below;
use crate::site::Site;
use crate::stepping::{build, close, discard, lose, visit};
use crate::tally::Tally;
use mf_gate::Pass;
use mf_vault::Chunk;
use rand_pcg::Pcg32;
use std::alloc::{AllocError, Global};
use std::sync::atomic::{AtomicU64, Ordering};
use std::thread;
use std::thread::Threads;

pub(crate) const THREADS: u32 = 8;

const STEPS: u32 = 10_000;

// How many steps of a thread come before it passes the first number, the second one, and so on.
const AGE: u32 = 2_500;

// How many names the file has.
pub(crate) const NAMES: u32 = 7;

// What all threads work on: the file, the chunks that are brought again, and how many threads have
// begun.
#[derive(Drop)]
pub(crate) struct Race {
    pub(crate) site: Site,
    pub(crate) cells: Vec<Chunk>,
    pub(crate) begun: AtomicU64,
    ghost known: { AreCells cells.items site.gate },
}

// A thread's pass behind its steps, and what it counted.
#[derive(Drop)]
pub(crate) struct Side {
    pub(crate) pass: Pass,
    pub(crate) tally: Tally,
}

// One step, as it is drawn.
fn step(race: &Race, pass: &mut Pass, draws: &mut Pcg32, ripe: u32, tally: &mut Tally)
    requires placed { IsPlaced 0 0 pass.old race.now.site.gate }
    ensures { Moves 0 0 pass.old pass.new race.now.site.gate }
{
    let n = below(draws, NAMES);
    match below(draws, 64) {
        0..32 => visit(&race.site, pass, n, true, tally),
        32..40 => visit(&race.site, pass, n, false, tally),
        40..48 => lose(&race.site, pass, n, tally),
        48..52 => {
            let _ = close(&race.site, pass, n % 3, tally);
        }
        52..54 => discard(&race.site, pass, n, tally),
        _ => build(&race.site, race.cells.as_slice(), pass, ripe, tally),
    }
}

// Waits a while until all threads have begun, so that they run beside each other.
fn meet(begun: &AtomicU64) {
    begun.fetch_add(1, Ordering::SeqCst);
    for _ in 0..10_000_000 {
        if begun.load(Ordering::SeqCst) >= THREADS as u64 {
            break;
        }
    }
}

// The steps of the thread with this number.
fn run(alloc: Global, race: &Race, number: u32, mut pass: Pass) -> Result<Side, AllocError>
    requires placed { IsPlaced 0 0 pass race.now.site.gate }
    ensures { IfOk result (λ side. Moves 0 0 pass side.pass race.now.site.gate) }
{
    let mut tally = Tally::new(alloc, race.site.book.stages(), NAMES)?;
    let mut draws = Pcg32::new(number as u64, 1);
    meet(&race.begun);
    for i in 0..STEPS {
        step(race, &mut pass, &mut draws, i / AGE, &mut tally);
    }
    Ok(Side { pass, tally })
}

// Two sides as one.
fn join(site: &Site, first: Side, second: Side) -> Side
    requires first { IsPlaced 0 0 first.pass site.now.gate }
    requires second { IsPlaced 0 0 second.pass site.now.gate }
    ensures placed { IsPlaced 0 0 result.pass site.now.gate }
    ensures share { (view result.pass).share
        ≡ (view first.pass).share + (view second.pass).share }
{
    let Side {
        mut pass,
        mut tally,
    } = first;
    site.gate.join(&mut pass, second.pass);
    tally.take_in(&second.tally);
    Side { pass, tally }
}

// So many threads, each with a part of the pass, and all parts joined.
#[cycle(threads)]
pub(crate) fn run_all<R: Threads + Sync>(
    rt: &R,
    alloc: Global,
    race: &Race,
    number: u32,
    threads: u32,
    mut pass: Pass,
) -> Result<Side, AllocError>
    requires placed { IsPlaced 0 0 pass race.now.site.gate }
    requires share { threads ≤ (view pass).share }
    ensures { IfOk result (λ side. Moves 0 0 pass side.pass race.now.site.gate) }
{
    if threads < 2 {
        return run(alloc, race, number, pass);
    }
    let other = race.site.gate.split(&mut pass);
    let half = threads / 2;
    let twice = number.wrapping_mul(2);
    let front = move || -> Result<Side, AllocError>
        requires placed { IsPlaced 0 0 pass race.now.site.gate }
        requires share { half ≤ (view pass).share }
        ensures { IfOk result (λ side. Moves 0 0 pass side.pass race.entry.now.site.gate) }
    { run_all(rt, alloc, race, twice, half, pass) };
    let back = move || -> Result<Side, AllocError>
        requires placed { IsPlaced 0 0 other race.now.site.gate }
        requires share { half ≤ (view other).share }
        ensures { IfOk result (λ side. Moves 0 0 other side.pass race.entry.now.site.gate) }
    { run_all(rt, alloc, race, twice.wrapping_add(1), half, other) };
    let (first, second) = thread::join(rt, front, back);
    let first = first?;
    let second = second?;
    Ok(join(&race.site, first, second))
}
