//! A phase of one client, who has each file alone.

ghost use Rattle.std.specs.Prelude.{◌≡◌, ◌≤◌, length, map, take, All, IfOk, Some};
ghost use Rattle.mf_client.specs.declared.done.Done.{Done};
ghost use Rattle.mf_script.specs.Phases.{clients_of};
ghost use Rattle.mf_client.specs.Runs.{IsSmall};
ghost use Rattle.mf_plain.specs.Alone.{first_actor};
ghost use Rattle.mf_plain.specs.Resting.{Resting};
ghost use Rattle.mf_plain.specs.Whole.{actor_of};
ghost use Rattle.mf_crew.specs.Files.{HasPhase, AllRestBy, left_by};
ghost use Rattle.mf_crew.specs.Alone.{RunsPhase};

use crate::phase::{PhaseRun, are_at_rest};
use mf_client::{Turnstile, run_client};
use mf_places::Losses;
use mf_plain::{Plain, PlainAccess};
use mf_script::Script;
use std::alloc::{AllocError, Global};

/// Runs a phase of one client over files at rest.
pub fn run_alone<T: Turnstile>(
    alloc: Global,
    files: Vec<Plain>,
    script: &Script,
    phase: u32,
    now: u64,
    turnstile: &T,
) -> Result<PhaseRun, AllocError>
    requires phase { HasPhase script.now phase }
    requires one { length (clients_of script.now phase) ≡ 1 }
    requires rest { AllRestBy script.now phase now files.items }
    ensures runs { IfOk result (λ ran.
        RunsPhase script.now phase now files.items ran.done.items ran.files.items) }
    ensures rest { IfOk result (λ ran. AllRestBy script.now phase now ran.files.items) }
    ensures small { IfOk result (λ ran. All (λ (d : Done). IsSmall d.io) ran.done.items) }
{
    let losses = script.losses(alloc, phase)?;
    let mut accesses = accesses_of(alloc, files, now, &losses)?;
    let done = run_client(alloc, &mut accesses, script, phase, 1, turnstile)?;
    let files = rest_of(alloc, accesses)?;
    are_at_rest(&files);
    Ok(PhaseRun { files, done })
}

// The access of the only actor of each file, in a phase with these ticks and these lose lines.
fn accesses_of(
    alloc: Global,
    files: Vec<Plain>,
    now: u64,
    losses: &Losses,
) -> Result<Vec<PlainAccess>, AllocError>
    requires since { All (λ (r : Resting). r.born ≤ now) files.items }
    requires lines { All (λ (r : Resting). take (length r.losses) losses.now ≡ r.losses)
        files.items }
    ensures { IfOk result (λ accesses. map actor_of accesses.items
        ≡ map (λ r. first_actor r now losses.now) files.items) }
{
    let mut accesses = Vec::new(alloc);
    for plain in files {
        accesses.push(access_of(alloc, plain, now, losses))?;
    }
    Ok(accesses)
}

// The access of the only actor of a file, in a phase with these ticks and these lose lines.
fn access_of(alloc: Global, plain: Plain, now: u64, losses: &Losses) -> PlainAccess
    requires since { plain.born ≤ now }
    requires lines { take (length plain.losses) losses.now ≡ plain.losses }
    ensures { actor_of result ≡ first_actor plain now losses.now }
{
    PlainAccess::new(alloc, plain, now, losses)
}

// The files at rest that are left of accesses.
fn rest_of(alloc: Global, accesses: Vec<PlainAccess>) -> Result<Vec<Plain>, AllocError>
    ensures { IfOk result (λ files.
        map (λ a. left_by (actor_of a)) accesses.items ≡ map Some files.items) }
{
    let mut files = Vec::new(alloc);
    for access in accesses {
        files.push(rest(access))?;
    }
    Ok(files)
}

// The file at rest that is left of an access.
fn rest(access: PlainAccess) -> Plain
    ensures { left_by (actor_of access) ≡ Some result }
{
    let (plain, _) = access.finish();
    plain
}
