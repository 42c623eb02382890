//! A phase of several clients, who share each file.

ghost use Rattle.std.specs.Prelude.{◌≡◌, ◌+◌, ◌++◌, ◌<◌, ◌≤◌, length, map, take, All, IfOk, OnOk};
ghost use Rattle.mf_machine.specs.Words.{whole_share};
ghost use Rattle.mf_plain.specs.Resting.{Resting, facts_of};
ghost use Rattle.mf_shared.specs.Seats.{IsOf, view_of};
ghost use Rattle.mf_shared.specs.Shared.{facts_in as facts_at};
ghost use Rattle.mf_shared.specs.Whole.{told_by};
ghost use Rattle.mf_client.specs.declared.done.Done.{Done};
ghost use Rattle.mf_script.specs.Phases.{clients_of};
ghost use Rattle.mf_client.specs.Runs.{IsSmall};
ghost use Rattle.mf_crew.specs.Files.{HasPhase, AllRestBy};
ghost use Rattle.mf_crew.specs.Live.{new_view, new_actor, share_of, untabled, join_each, AreLeft};
ghost use Rattle.mf_crew.specs.Live.{RunsLive};
ghost use Rattle.mf_crew.specs.Parts.{AreOf, AreNew, AreJobs, AreAllOf, NoneFailed, done_in};
ghost use Rattle.mf_crew.specs.Parts.{take_in};
ghost use Rattle.mf_crew.specs.Parts.{facts_of_all, views_in};

use crate::jobs::{Job, Report, run_jobs};
use crate::phase::{PhaseRun, count_clients};
use mf_client::{Done, Turnstile};
use mf_places::Losses;
use mf_plain::Plain;
use mf_script::Script;
use mf_shared::{Seat, Shared, SharedAccess};
use std::alloc::{AllocError, Global};
use std::sync::Wait;
use std::thread::Threads;

/// Runs a phase of several clients over files at rest.
pub(crate) fn run_live<R: Threads + Wait + Sync, T: Turnstile>(
    rt: &R,
    alloc: Global,
    files: Vec<Plain>,
    script: &Script,
    phase: u32,
    now: u64,
    turnstile: &T,
) -> Result<PhaseRun, AllocError>
    requires phase { HasPhase script.now phase }
    requires many { 1 < length (clients_of script.now phase) }
    requires rest { AllRestBy script.now phase now files.items }
    ensures runs { IfOk result (λ ran.
        RunsLive script.now phase now files.items ran.done.items ran.files.items) }
    ensures rest { IfOk result (λ ran. AllRestBy script.now phase now ran.files.items) }
    ensures small { IfOk result (λ ran. All (λ (d : Done). IsSmall d.io) ran.done.items) }
{
    let clients = count_clients(script, phase);
    let losses = script.losses(alloc, phase)?;
    let (shareds, mut seats) = spread(alloc, files, now, &losses)?;
    let jobs = deal(rt, alloc, &shareds, &mut seats, clients)?;
    let reports = run_jobs(rt, alloc, jobs, script, phase, turnstile)?;
    let done = gather(alloc, &shareds, &mut seats, reports)?;
    let files = rest_of(alloc, shareds, seats)?;
    Ok(PhaseRun { files, done })
}

// The files among many actors, in a phase with these ticks and these lose lines, and the first
// seat of each.
fn spread(
    alloc: Global,
    files: Vec<Plain>,
    now: u64,
    losses: &Losses,
) -> Result<(Vec<Shared>, Vec<Seat>), AllocError>
    requires since { All (λ (r : Resting). r.born ≤ now) files.items }
    requires lines { All (λ (r : Resting). take (length r.losses) losses.now ≡ r.losses)
        files.items }
    ensures of { IfOk result (λ t. AreOf t.1.items t.0.items) }
    ensures found { IfOk result (λ t. map (λ s. untabled (facts_at s)) t.0.items
        ≡ map (λ r. facts_of r now losses.now) files.items) }
    ensures new { IfOk result (λ t. AreNew 0 (facts_of_all t.0.items) t.1.items) }
{
    let mut shareds = Vec::new(alloc);
    let mut seats = Vec::new(alloc);
    for plain in files {
        let (shared, seat) = spread_one(alloc, plain, now, losses)?;
        shareds.push(shared)?;
        seats.push(seat)?;
    }
    Ok((shareds, seats))
}

// A file among many actors, and its first seat.
fn spread_one(
    alloc: Global,
    plain: Plain,
    now: u64,
    losses: &Losses,
) -> Result<(Shared, Seat), AllocError>
    requires since { plain.born ≤ now }
    requires lines { take (length plain.losses) losses.now ≡ plain.losses }
    ensures of { IfOk result (λ t. IsOf t.1 t.0) }
    ensures found { IfOk result (λ t. untabled (facts_at t.0) ≡ facts_of plain now losses.now) }
    ensures view { IfOk result (λ t. view_of t.1 ≡ new_view whole_share (facts_at t.0)) }
{
    match Shared::of_plain(alloc, plain, now, losses) {
        Ok(made) => Ok(made),
        Err(_plain) => Err(AllocError),
    }
}

// The clients from 1 on, each with an access to each file.
fn deal<'a, R>(
    rt: &'a R,
    alloc: Global,
    shareds: &'a [Shared],
    seats: &mut Vec<Seat>,
    clients: u32,
) -> Result<Vec<Job<'a, R>>, AllocError>
    requires few { clients ≤ 8 }
    requires of { AreOf seats.old.items shareds.now }
    requires new { AreNew 0 (facts_of_all shareds.now) seats.old.items }
    ensures of { OnOk result (AreOf seats.new.items shareds.now) }
    ensures new { OnOk result (AreNew clients (facts_of_all shareds.now) seats.new.items) }
    ensures count { IfOk result (λ jobs. length jobs.items ≡ clients) }
    ensures jobs { IfOk result (λ jobs. AreJobs (facts_of_all shareds.now) jobs.items) }
{
    let mut jobs = Vec::new(alloc);
    for behind in 0..clients {
        let accesses = split_all(rt, alloc, shareds, seats, behind)?;
        let client = behind + 1;
        jobs.push(Job { client, accesses })?;
    }
    Ok(jobs)
}

// The accesses of the client behind so many others, one a file. Half of each seat's share goes to
// them.
fn split_all<'a, R>(
    rt: &'a R,
    alloc: Global,
    shareds: &'a [Shared],
    seats: &mut Vec<Seat>,
    behind: u32,
) -> Result<Vec<SharedAccess<'a, R>>, AllocError>
    requires few { behind < 8 }
    requires of { AreOf seats.old.items shareds.now }
    requires new { AreNew behind (facts_of_all shareds.now) seats.old.items }
    ensures of { OnOk result (AreOf seats.new.items shareds.now) }
    ensures new { OnOk result (AreNew (behind + 1) (facts_of_all shareds.now) seats.new.items) }
    ensures actors { IfOk result (λ accesses. map told_by accesses.items
        ≡ map (new_actor (share_of (behind + 1))) (facts_of_all shareds.now)) }
{
    let mut accesses = Vec::new(alloc);
    for i in 0..shareds.len() {
        let shared = &shareds[i];
        let seat = shared.split(&mut seats[i]);
        accesses.push(SharedAccess::new(rt, alloc, shared, seat))?;
    }
    Ok(accesses)
}

// What the commands of all clients did, in the order of the clients, whose seats are joined to
// these.
fn gather(
    alloc: Global,
    shareds: &[Shared],
    seats: &mut Vec<Seat>,
    reports: Vec<Result<Report, AllocError>>,
) -> Result<Vec<Done>, AllocError>
    requires of { AreOf seats.old.items shareds.now }
    requires all { AreAllOf shareds.now reports.items }
    ensures of { OnOk result (AreOf seats.new.items shareds.now) }
    ensures views { OnOk result (views_in seats.new.items
        ≡ take_in (views_in seats.old.items) reports.items) }
    ensures done { IfOk result (λ done. done.items ≡ done_in reports.items) }
    ensures held { OnOk result (NoneFailed reports.items) }
{
    let mut all = Vec::new(alloc);
    for report in reports {
        match report {
            Ok(report) => take_report(shareds, seats, &mut all, report)?,
            Err(lacks) => return Err(lacks),
        }
    }
    Ok(all)
}

// What the commands of a client did stands behind the others, and its seats are joined to these.
fn take_report(
    shareds: &[Shared],
    seats: &mut Vec<Seat>,
    all: &mut Vec<Done>,
    report: Report,
) -> Result<(), AllocError>
    requires of { AreOf seats.old.items shareds.now }
    requires gone { AreOf report.seats.items shareds.now }
    ensures of { OnOk result (AreOf seats.new.items shareds.now) }
    ensures views { OnOk result (views_in seats.new.items
        ≡ join_each (views_in seats.old.items) (views_in report.seats.items)) }
    ensures done { OnOk result (all.new.items ≡ all.old.items ++ report.done.items) }
{
    let Report { done, seats: gone } = report;
    append(all, done)?;
    join_all(shareds, seats, gone);
    Ok(())
}

// Adds commands behind others.
fn append(all: &mut Vec<Done>, more: Vec<Done>) -> Result<(), AllocError>
    ensures { OnOk result (all.new.items ≡ all.old.items ++ more.items) }
{
    for done in more {
        all.push(done)?;
    }
    Ok(())
}

// Each seat takes in one more.
fn join_all(shareds: &[Shared], seats: &mut Vec<Seat>, gone: Vec<Seat>)
    requires of { AreOf seats.old.items shareds.now }
    requires gone { AreOf gone.items shareds.now }
    ensures of { AreOf seats.new.items shareds.now }
    ensures views { views_in seats.new.items
        ≡ join_each (views_in seats.old.items) (views_in gone.items) }
{
    let mut i = 0;
    for seat in gone {
        shareds[i].join(&mut seats[i], seat);
        i += 1;
    }
}

// The files at rest that are left.
fn rest_of(alloc: Global, shareds: Vec<Shared>, seats: Vec<Seat>) -> Result<Vec<Plain>, AllocError>
    requires of { AreOf seats.items shareds.items }
    requires last { All (λ seat. (view_of seat).share ≡ whole_share) seats.items }
    ensures { IfOk result (λ files.
        AreLeft (facts_of_all shareds.items) (views_in seats.items) files.items) }
{
    let mut files = Vec::new(alloc);
    for (shared, seat) in shareds.into_iter().zip(seats) {
        files.push(shared.into_plain(seat))?;
    }
    Ok(files)
}
