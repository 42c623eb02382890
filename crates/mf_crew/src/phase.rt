//! A phase, run by its clients.

ghost use Rattle.std.specs.Prelude.{◌≡◌, ◌≤◌, length, All, IfOk};
ghost use Rattle.mf_client.specs.declared.done.Done.{Done};
ghost use Rattle.mf_client.specs.Runs.{IsSmall};
ghost use Rattle.mf_plain.specs.Resting.{AtRest};
ghost use Rattle.mf_script.specs.Phases.{clients_of};
ghost use Rattle.mf_crew.specs.Files.{HasPhase, AllRestBy};
ghost use Rattle.mf_crew.specs.Live.{IsPhase};

use crate::alone::run_alone;
use crate::live::run_live;
use mf_client::{Done, Turnstile};
use mf_plain::Plain;
use mf_script::Script;
use std::alloc::{AllocError, Global};
use std::sync::Wait;
use std::thread::Threads;

/// A phase that was run.
#[derive(Drop)]
pub struct PhaseRun {
    /// The files, at rest again.
    pub files: Vec<Plain>,
    /// What the commands did, client after client, and in the order of each.
    pub done: Vec<Done>,
}

/// Runs a phase of a script over the script's files, in their order. Phases are numbered from 1,
/// and `now` is how many ticks went before the phase. The turnstile is told of each client before
/// each of its commands. Pins and rights end with the phase.
///
/// The only error is want of memory outside of a command; nothing is handed back then.
pub fn run_phase<R: Threads + Wait + Sync, T: Turnstile>(
    rt: &R,
    alloc: Global,
    files: Vec<Plain>,
    script: &Script,
    phase: u32,
    now: u64,
    turnstile: &T,
) -> Result<PhaseRun, AllocError>
    requires phase { HasPhase script.now phase }
    requires rest { AllRestBy script.now phase now files.items }
    ensures runs { IfOk result (λ ran.
        IsPhase script.now phase now files.items ran.done.items ran.files.items) }
    ensures rest { IfOk result (λ ran. AllRestBy script.now phase now ran.files.items) }
    ensures small { IfOk result (λ ran. All (λ (d : Done). IsSmall d.io) ran.done.items) }
{
    if count_clients(script, phase) == 1 {
        return Ok(run_alone(alloc, files, script, phase, now, turnstile)?);
    }
    Ok(run_live(rt, alloc, files, script, phase, now, turnstile)?)
}

/// Files keep that they are at rest.
pub fn are_at_rest(files: &[Plain])
    ensures { All AtRest files.now }
{
    for plain in files {
        plain.is_at_rest();
    }
}

// How many clients a phase has.
pub(crate) fn count_clients(script: &Script, phase: u32) -> u32
    requires { HasPhase script.now phase }
    ensures count { result ≡ length (clients_of script.now phase) }
    ensures few { (1 ≤ result) × (result ≤ 8) }
{
    script.clients(phase).len() as u32
}
