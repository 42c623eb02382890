//! The least time of a get of an access, in tenths of nanoseconds: of a file's only actor, of an
//! actor that shares the file, and of four such actors in threads.
ghost use Rattle.std.specs.Prelude.{◌≡◌, ℕ, ◌<◌, ◌≤◌, All, IfOk, length, slice_index_or, vec_len};
ghost use Rattle.mf_shared.specs.Seats.{IsOf, view_of};

use crate::codes::{chunk, nanoseconds_since};
use crate::files::{CHUNKS, family, file, fill};
use crate::gets::get_often;
use anyhow::{Result, bail};
use mf_plain::PlainAccess;
use mf_shared::{Seat, Shared, SharedAccess};
use mf_vault::{Losses, Name};
use std::alloc::{AllocError, Global};
use std::rt::Clock;
use std::sync::Wait;
use std::thread;
use std::thread::Threads;
use std::time::Instant;

// How many threads get beside each other.
const THREADS: u32 = 4;

// How many gets an access makes, for the entries of which it makes room at once.
const GETS: u32 = 1_024;

// How many accesses a thread has, one after the other.
const ACCESSES: u32 = 64;

/// The time of a get by the only actor of a file of chunks of this size.
pub fn least_plain<R: Clock + AllocGlobal>(rt: &R, turns: u32, size: u32) -> Result<u64> {
    let mut least = u64::MAX;
    for _ in 0..turns {
        least = least.min(time_plain(rt, size)?);
    }
    Ok(tenths(least, u64::from(GETS)))
}

// The time of all gets of an access, in nanoseconds.
fn time_plain<R: Clock + AllocGlobal>(rt: &R, size: u32) -> Result<u64> {
    let alloc = rt.alloc();
    let family = family(alloc)?;
    let content = chunk(alloc, 0, size.saturating_mul(CHUNKS))?;
    let bytes = content.bytes();
    let plain = file(alloc, &family, bytes, size)?;
    let losses = Losses::new(alloc);
    let mut access = PlainAccess::new(alloc, plain, 0, &losses);
    if !fill(alloc, &mut access, &family, bytes) {
        bail!("the file wasn't created");
    }
    let start = Instant::now(rt)?;
    let all = get_often(&mut access, Name::Data(0), GETS);
    let time = nanoseconds_since(rt, &start)?;
    if !all {
        bail!("a chunk isn't there");
    }
    Ok(time)
}

/// The time of a get by an actor that shares a file of chunks of this size, while no other actor
/// does anything.
pub fn least_shared<R: Clock + AllocGlobal + Wait>(rt: &R, turns: u32, size: u32) -> Result<u64> {
    let alloc = rt.alloc();
    let Party { shared, seat, .. } = set_up(rt, alloc, size, [Name::Data(0); 4])?;
    let mut job = Job {
        seat,
        name: Name::Data(0),
        all: true,
    };
    let mut least = u64::MAX;
    for _ in 0..turns {
        let start = Instant::now(rt)?;
        job = work(rt, alloc, &shared, job);
        least = least.min(nanoseconds_since(rt, &start)?);
    }
    if !job.all {
        bail!("a chunk isn't there");
    }
    Ok(tenths(least, u64::from(GETS)))
}

/// The time of all gets of four threads, divided by their number. Each gets the chunk of its name,
/// of one shared file of chunks of this size.
pub fn least_threads<R: Clock + AllocGlobal + Threads + Wait + Sync>(
    rt: &R,
    turns: u32,
    size: u32,
    names: [Name; 4],
) -> Result<u64> {
    let alloc = rt.alloc();
    let Party {
        shared,
        mut seat,
        mut jobs,
    } = set_up(rt, alloc, size, names)?;
    let mut least = u64::MAX;
    for _ in 0..turns {
        let start = Instant::now(rt)?;
        jobs = run_all(rt, alloc, &shared, jobs)?;
        least = least.min(nanoseconds_since(rt, &start)?);
    }
    if !join_all(&shared, &mut seat, jobs) {
        bail!("a chunk isn't there");
    }
    Ok(tenths(least, u64::from(THREADS * ACCESSES * GETS)))
}

// What an actor does: it gets the chunk of a name, by its seat. `all` says whether the chunk was
// there each time so far.
#[derive(Drop)]
struct Job {
    seat: Seat,
    name: Name,
    all: bool,
}

// A shared file that is created, a job for each thread, and the seat of the actor that created it.
#[derive(Drop)]
struct Party {
    shared: Shared,
    seat: Seat,
    jobs: Vec<Job>,
}

// A shared file of chunks of this size, with a job for each of these names.
fn set_up<R: Wait>(rt: &R, alloc: Global, size: u32, names: [Name; 4]) -> Result<Party>
    ensures seat { IfOk result (λ party. IsOf party.seat party.shared) }
    ensures jobs { IfOk result (λ party.
        All (λ job. IsOf job.seat party.shared) party.jobs.items) }
{
    let family = family(alloc)?;
    let content = chunk(alloc, 0, size.saturating_mul(CHUNKS))?;
    let bytes = content.bytes();
    let plain = file(alloc, &family, bytes, size)?;
    let losses = Losses::new(alloc);
    let Ok((shared, mut seat)) = Shared::of_plain(alloc, plain, 0, &losses) else {
        bail!("there is no memory for the file");
    };
    let jobs = deal(alloc, &shared, &mut seat, names)?;
    let mut access = SharedAccess::new(rt, alloc, &shared, seat);
    let made = fill(alloc, &mut access, &family, bytes);
    let (seat, _) = access.finish();
    if !made {
        bail!("the file wasn't created");
    }
    Ok(Party { shared, seat, jobs })
}

// A job for each of these names, with seats that are split from this one.
fn deal(
    alloc: Global,
    shared: &Shared,
    seat: &mut Seat,
    names: [Name; 4],
) -> Result<Vec<Job>, AllocError>
    requires of { IsOf seat.old shared.now }
    requires share { 32 ≤ (view_of seat.old).share }
    ensures seat { IsOf seat.new shared.now }
    ensures jobs { IfOk result (λ jobs. All (λ job. IsOf job.seat shared.now) jobs.items) }
{
    let first = shared.split(seat);
    let second = shared.split(seat);
    let third = shared.split(seat);
    let fourth = shared.split(seat);
    let all = true;
    let [a, b, c, d] = names;
    Ok(vec![in alloc;
        Job {
            seat: first,
            name: a,
            all
        },
        Job {
            seat: second,
            name: b,
            all
        },
        Job {
            seat: third,
            name: c,
            all
        },
        Job {
            seat: fourth,
            name: d,
            all
        },
    ]?)
}

// All jobs, each in a thread of its own where one can be made.
fn run_all<R: Threads + Wait + Sync>(
    rt: &R,
    alloc: Global,
    shared: &Shared,
    jobs: Vec<Job>,
) -> Result<Vec<Job>, AllocError>
    requires { All (λ job. IsOf job.seat shared.now) jobs.items }
    ensures len { IfOk result (λ done. vec_len done ≡ vec_len jobs) }
    ensures each { IfOk result (λ done. (i : ℕ) (d : _) → i < length jobs.items
        → IsOf (slice_index_or done.items i d).seat shared.now) }
{
    thread::map_vec(
        rt,
        jobs,
        &|job| -> Job
            requires { IsOf job.seat shared.now }
        { run(rt, alloc, shared, job) },
    )
}

// A thread's gets: those of accesses in turn.
fn run<R: Wait>(rt: &R, alloc: Global, shared: &Shared, job: Job) -> Job
    requires { IsOf job.seat shared.now }
    ensures { IsOf result.seat shared.now }
{
    let mut job = job;
    for _ in 0..ACCESSES {
        job = work(rt, alloc, shared, job);
    }
    job
}

// The gets of one access.
fn work<R: Wait>(rt: &R, alloc: Global, shared: &Shared, job: Job) -> Job
    requires { IsOf job.seat shared.now }
    ensures { IsOf result.seat shared.now }
{
    let Job { seat, name, all } = job;
    let mut access = SharedAccess::new(rt, alloc, shared, seat);
    let here = get_often(&mut access, name, GETS);
    let (seat, _) = access.finish();
    let all = all && here;
    Job { seat, name, all }
}

// Joins the seats of the jobs to this one: whether the chunk was there each time.
fn join_all(shared: &Shared, seat: &mut Seat, jobs: Vec<Job>) -> bool
    requires seat { IsOf seat.old shared.now }
    requires jobs { All (λ job. IsOf job.seat shared.now) jobs.items }
{
    let mut every = true;
    for job in jobs {
        let Job {
            seat: gone,
            all,
            ..
        } = job;
        shared.join(seat, gone);
        every &= all;
    }
    every
}

// The tenths of nanoseconds of one get, where so many took this time.
fn tenths(nanoseconds: u64, gets: u64) -> u64 {
    nanoseconds.saturating_mul(10) / gets.max(1)
}
