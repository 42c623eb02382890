//! What each client does in a phase of several.

ghost use Rattle.std.specs.Prelude.{◌≡◌, ℕ, ◌<◌, length, map, slice_index_or, All, IfOk, vec_len};
ghost use Rattle.mf_shared.specs.Whole.{told_by};
ghost use Rattle.mf_crew.specs.Parts.{IsRunnable, IsReport, IsSeatOf, AreSeatsOf, actors_in};

use mf_client::{Done, Turnstile, run_client};
use mf_script::Script;
use mf_shared::{Seat, SharedAccess};
use std::alloc::{AllocError, Global};
use std::sync::Wait;
use std::thread;
use std::thread::Threads;

/// A client, with its access to each file.
#[derive(Drop)]
pub(crate) struct Job<'a, R> {
    /// The client's number in its phase, from 1.
    pub(crate) client: u32,
    pub(crate) accesses: Vec<SharedAccess<'a, R>>,
}

/// What came of a client: what its commands did, and the seats of its accesses.
#[derive(Drop)]
pub(crate) struct Report {
    pub(crate) done: Vec<Done>,
    pub(crate) seats: Vec<Seat>,
}

/// Runs clients beside each other, each in a thread of its own where one can be made, and else
/// where the thread would have been made. The answer has what came of each, in their order; it
/// fails only where memory ran out.
pub(crate) fn run_jobs<'a, R: Threads + Wait + Sync, T: Turnstile>(
    rt: &R,
    alloc: Global,
    jobs: Vec<Job<'a, R>>,
    script: &Script,
    phase: u32,
    turnstile: &T,
) -> Result<Vec<Result<Report, AllocError>>, AllocError>
    requires { All (λ job. IsRunnable script.now phase job) jobs.items }
    ensures len { IfOk result (λ reports. vec_len reports ≡ vec_len jobs.entry) }
    ensures each { IfOk result (λ reports. (i : ℕ) (d : _) (e : _) → i < length jobs.entry.items
        → IfOk (slice_index_or reports.items i d) (λ report. IsReport script.now phase
        (slice_index_or jobs.entry.items i e).client
        (actors_in (slice_index_or jobs.entry.items i e)) report)) }
{
    thread::map_vec(
        rt,
        jobs,
        &|job| -> Result<Report, AllocError>
            requires { IsRunnable script.now phase job }
        { run_job(alloc, job, script, phase, turnstile) },
    )
}

// Runs a client.
fn run_job<'a, R: Wait, T: Turnstile>(
    alloc: Global,
    job: Job<'a, R>,
    script: &Script,
    phase: u32,
    turnstile: &T,
) -> Result<Report, AllocError>
    requires { IsRunnable script.now phase job }
    ensures { IfOk result (λ report. IsReport script.now phase job.entry.client
        (actors_in job.entry) report) }
{
    let Job {
        client,
        mut accesses,
    } = job;
    let done = run_client(alloc, &mut accesses, script, phase, client, turnstile)?;
    let seats = seats_of(alloc, accesses)?;
    Ok(Report { done, seats })
}

// The seats of these accesses.
fn seats_of<'a, R>(
    alloc: Global,
    accesses: Vec<SharedAccess<'a, R>>,
) -> Result<Vec<Seat>, AllocError>
    ensures { IfOk result (λ seats. AreSeatsOf (map told_by accesses.entry.items) seats.items) }
{
    let mut seats = Vec::new(alloc);
    for access in accesses {
        seats.push(seat_of(access))?;
    }
    Ok(seats)
}

// The seat of an access.
fn seat_of<'a, R>(access: SharedAccess<'a, R>) -> Seat
    ensures { IsSeatOf (told_by access.entry) result }
{
    let (seat, _) = access.finish();
    seat
}
