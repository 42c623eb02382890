//! A client's commands, run.

ghost use Rattle.std.specs.Prelude.{◌≡◌, ◌≤◌, ℕ, [], All, map, length, Some, IfOk, OnErr};
ghost use Rattle.mf_lines.specs.Meaning.{file_in};
ghost use Rattle.mf_script.specs.Contents.{bytes_in};
ghost use Rattle.mf_script.specs.Families.{file_policies};
ghost use Rattle.mf_vault.specs.Actor.{Actor};
ghost use Rattle.mf_vault.specs.Conditions.{IsIdle, IsOfFamily};
ghost use Rattle.mf_vault.specs.Counting.{io_of};
ghost use Rattle.mf_client.specs.declared.done.Done.{Done};
ghost use Rattle.mf_client.specs.Acts.{Acts, Comes, away_of, cut_all};
ghost use Rattle.mf_client.specs.OnFile.{OnFile};
ghost use Rattle.mf_client.specs.Clients.{HasClient, AreFiles, facts_in};
ghost use Rattle.mf_client.specs.Runs.{Runs, IsSmall, IsDone, gained, io_gained};
ghost use Rattle.mf_client.specs.Steps.{Finds};

use crate::acting::{
    convert_file, create_file, hold_file, read_file, reclaim_file, release_file, remove_file,
    repair_file,
};
use crate::came::{Came, NOTHING, append, count_from};
use crate::done::{Done, Outcome, Parts, Place};
use crate::finding::commands_of;
use crate::losing::lose_server;
use crate::sweeping::sweep_files;
use crate::turnstile::Turnstile;
use mf_read::{Family, PlanCache};
use mf_script::{Act, Command, Content, Script};
use mf_vault::{Fetch, Memory, Servers};
use std::alloc::Global;

// How many plans a client keeps for its reads.
const PLANS: u32 = 32;

// Cuts the servers off in all files.
fn cut_all<A: Fetch>(accesses: &mut [A], away: Servers)
    ensures { map A.actor accesses.new ≡ cut_all away (map A.actor accesses.old) }
{
    for i in 0..accesses.len() {
        accesses[i].cut_off(away);
    }
}

// What comes of a command on the file of this access, which has this content.
fn act_on<A: Fetch>(
    alloc: Global,
    access: &mut A,
    family: &Family,
    plans: &mut PlanCache,
    content: &Content,
    act: Act,
) -> Outcome
    requires on { (file : ℕ) × (file_in act ≡ Some file) }
    requires idle { IsIdle (A.actor access.old) }
    requires family { IsOfFamily family.now.shape family.now.points
        (A.actor access.old).facts.book }
    requires bytes { (A.actor access.old).facts.bytes ≡ bytes_in content.now }
    requires reached { (A.actor access.old).cut ≡ away_of act }
    ensures { Comes act result (A.actor access.old) (A.actor access.new) }
{
    match act {
        Act::Create(_) => create_file(alloc, access, family, content),
        Act::Read { .. } => read_file(alloc, access, family, plans),
        Act::Repair { .. } => repair_file(alloc, access, family),
        Act::Convert { stop, .. } => convert_file(alloc, access, family, stop),
        Act::Reclaim(_) => reclaim_file(alloc, access),
        Act::Remove(_) => remove_file(access),
        Act::Hold(_) => hold_file(access),
        Act::Release(_) => release_file(access),
        Act::Lose(_) | Act::Sweep => unreachable!(),
    }
}

// A command on the file of this access, which has this content.
fn on_file<A: Fetch>(
    alloc: Global,
    access: &mut A,
    family: &Family,
    plans: &mut PlanCache,
    content: &Content,
    act: Act,
) -> Came
    requires on { (file : ℕ) × (file_in act ≡ Some file) }
    requires idle { IsIdle (A.actor access.old) }
    requires family { IsOfFamily family.now.shape family.now.points
        (A.actor access.old).facts.book }
    requires bytes { (A.actor access.old).facts.bytes ≡ bytes_in content.now }
    requires reached { (A.actor access.old).cut ≡ away_of act }
    ensures came { Comes act result.outcome (A.actor access.old) (A.actor access.new) }
    ensures parts { result.parts.items ≡ [] }
    ensures io { result.io ≡ io_of (gained (A.actor access.old) (A.actor access.new)) }
{
    let from = access.ledger().len();
    let outcome = act_on(alloc, access, family, plans, content, act);
    let io = count_from(access.ledger(), from);
    Came {
        outcome,
        parts: Vec::new(alloc),
        io,
    }
}

// A command on the file of this number, behind the cutting off.
fn on_numbered<A: Fetch>(
    alloc: Global,
    accesses: &mut [A],
    script: &Script,
    plans: &mut PlanCache,
    command: Command,
    file: u32,
) -> Came
    requires finds { Finds script.now command (map A.actor accesses.old) }
    requires file { file_in command.act ≡ Some file }
    requires reached { All (λ (a : Actor). a.cut ≡ away_of command.act) (map A.actor accesses.old) }
    ensures came { OnFile file (Comes command.act result.outcome)
        (map A.actor accesses.old) (map A.actor accesses.new) }
    ensures parts { result.parts.items ≡ [] }
    ensures io { result.io
        ≡ io_gained (map A.actor accesses.old) (map A.actor accesses.new) }
{
    let family = script.family(script.family_of(file));
    let content = &script.files()[file as usize].content;
    let access = &mut accesses[file as usize];
    on_file(alloc, access, family, plans, content, command.act)
}

// A command, behind the cutting off.
fn act<A: Fetch>(
    alloc: Global,
    accesses: &mut [A],
    script: &Script,
    plans: &mut PlanCache,
    command: Command,
) -> Came
    requires finds { Finds script.now command (map A.actor accesses.old) }
    requires reached { All (λ (a : Actor). a.cut ≡ away_of command.act) (map A.actor accesses.old) }
    ensures acts { Acts (file_policies script.now) command.line command.act result.outcome
        result.parts.items (map A.actor accesses.old) (map A.actor accesses.new) }
    ensures io { result.io
        ≡ io_gained (map A.actor accesses.old) (map A.actor accesses.new) }
{
    match command.act {
        Act::Create(file)
        | Act::Read { file, .. }
        | Act::Repair { file, .. }
        | Act::Convert { file, .. }
        | Act::Reclaim(file)
        | Act::Remove(file)
        | Act::Hold(file)
        | Act::Release(file) => on_numbered(alloc, accesses, script, plans, command, file),
        Act::Lose(server) => Came {
            outcome: lose_server(alloc, accesses, server, command.line),
            parts: Vec::new(alloc),
            io: NOTHING,
        },
        Act::Sweep => sweep_files(alloc, accesses, script),
    }
}

// The servers that a command can't reach.
fn away_of(act: Act) -> Servers
    ensures { result ≡ away_of act }
{
    match act {
        Act::Read { away, .. } | Act::Repair { away, .. } | Act::Convert { away, .. } => away,
        _ => Servers::none(),
    }
}

// One command: its servers are cut off in all files, and then it is done.
fn run_command<A: Fetch>(
    alloc: Global,
    accesses: &mut [A],
    script: &Script,
    plans: &mut PlanCache,
    place: Place,
    command: Command,
) -> Done
    requires { Finds script.now command (map A.actor accesses.old) }
    ensures { IsDone script.now place command result
        (map A.actor accesses.old) (map A.actor accesses.new) }
{
    cut_all(accesses, away_of(command.act));
    let came = act(alloc, accesses, script, plans, command);
    Done {
        place,
        act: command.act,
        outcome: came.outcome,
        parts: Parts::new(came.parts),
        io: came.io,
    }
}

/// Runs the commands of a client over the files of the script, one access a file, in their order.
/// Phases, clients and commands are numbered from 1. Before each command the turnstile is told, and
/// the servers that the command can't reach are cut off in all files.
///
/// The answer has what was done, one entry a command. The only error is want of memory before the
/// first command, also for the plans that reads keep; where memory runs out later, that is the
/// outcome of one command, and the next one follows. What is held stays held.
pub fn run_client<A: Fetch, T: Turnstile>(
    alloc: Global,
    accesses: &mut [A],
    script: &Script,
    phase: u32,
    client: u32,
    turnstile: &T,
) -> Result<Vec<Done>, Memory>
    requires client { HasClient script.now phase client }
    requires files { AreFiles script.now phase (facts_in (map A.actor accesses.old)) }
    requires idle { All IsIdle (map A.actor accesses.old) }
    ensures runs { IfOk result (λ done. Runs script.now phase client
        (map A.actor accesses.old) done.items (map A.actor accesses.new)) }
    ensures small { IfOk result (λ done. All (λ (d : Done). IsSmall d.io) done.items) }
    ensures nothing { OnErr result (map A.actor accesses.new ≡ map A.actor accesses.old) }
    ensures idle { All IsIdle (map A.actor accesses.new) }
    ensures facts { facts_in (map A.actor accesses.new) ≡ facts_in (map A.actor accesses.old) }
{
    let commands = commands_of(script, phase, client);
    let mut done = Vec::with_capacity(alloc, commands.len())?;
    let mut plans = PlanCache::new(alloc, PLANS)?;
    for (i, command) in commands.iter().enumerate() {
        let place = Place {
            phase,
            client,
            command: i as u32 + 1,
        };
        turnstile.reached(client, place.command);
        append(
            &mut done,
            run_command(alloc, accesses, script, &mut plans, place, *command),
        );
    }
    Ok(done)
}
