//! A script's phases, run one after the other over files that rest between them.

ghost use Rattle.std.specs.Prelude.{◌≡◌, ◌≤◌, ◌++◌, ◌∷◌, [], length, slice_get};
ghost use Rattle.std.specs.Prelude.{All, IfOk, OnOk, Some};
ghost use Rattle.mf_client.specs.declared.done.Done.{Done};
ghost use Rattle.mf_lines.specs.Meaning.{phases_in};
ghost use Rattle.mf_script.specs.Sound.{IsSound};
ghost use Rattle.mf_client.specs.Runs.{IsSmall};
ghost use Rattle.mf_top.specs.ScriptRun.{new_file, new_files, AreOfLines, IsScriptRun};

use mf_client::{Done, Turnstile};
use mf_crew::{PhaseRun, are_at_rest, run_phase};
use mf_places::Book;
use mf_plain::Plain;
use mf_script::{FileLine, Item, Script, content_bytes};
use std::alloc::{AllocError, Global};
use std::sync::Wait;
use std::thread::Threads;

/// Runs the phases of a script from its files, of which none is created. Fails only where memory
/// ran out outside of a command.
pub fn run<R: Threads + Wait + Sync, T: Turnstile>(
    rt: &R,
    alloc: Global,
    script: &Script,
    turnstile: &T,
) -> Result<PhaseRun, AllocError>
    requires { IsSound script.now }
    ensures plain { IfOk result (λ ran. IsScriptRun script.now ran.done.items ran.files.items) }
    ensures left { IfOk result (λ ran. AreOfLines script.now ran.files.items) }
    ensures few { IfOk result (λ ran. length ran.done.items ≤ 4096) }
    ensures small { IfOk result (λ ran. All (λ (d : Done). IsSmall d.io) ran.done.items) }
{
    let mut files = new_files(alloc, script)?;
    let mut done = Vec::new(alloc);
    for phase in 0..count_phases(script) {
        let now = script.ticks_before(phase + 1);
        let ran = run_phase(rt, alloc, files, script, phase + 1, now, turnstile)?;
        files = ran.files;
        append(&mut done, ran.done)?;
    }
    are_at_rest(&files);
    Ok(PhaseRun { files, done })
}

// How many phases a script has.
fn count_phases(script: &Script) -> u32
    requires { IsSound script.now }
    ensures { result ≡ length (phases_in script.now.items) }
{
    let mut count = 0;
    for item in script.items() {
        count += phases_of(item);
    }
    count
}

// How many phases an item is.
fn phases_of(item: &Item) -> u32
    ensures few { result ≤ 1 }
    ensures count { result ≡ length (phases_in (item.now ∷ [])) }
{
    match item {
        Item::Tick(_) => 0,
        Item::Phase(_) => 1,
    }
}

// Adds commands behind others.
fn append(all: &mut Vec<Done>, more: Vec<Done>) -> Result<(), AllocError>
    ensures { OnOk result (all.new.items ≡ all.old.items ++ more.items) }
{
    for done in more {
        all.push(done)?;
    }
    Ok(())
}

// The script's files, none of them created.
fn new_files(alloc: Global, script: &Script) -> Result<Vec<Plain>, AllocError>
    requires { IsSound script.now }
    ensures { IfOk result (λ files. files.items ≡ new_files script.now) }
{
    let mut files = Vec::new(alloc);
    for (n, line) in script.files().iter().enumerate() {
        files.push(new_file(alloc, script, n as u32, line)?)?;
    }
    Ok(files)
}

// A file of the script, not created.
fn new_file(alloc: Global, script: &Script, n: u32, line: &FileLine) -> Result<Plain, AllocError>
    requires script { IsSound script.now }
    requires line { slice_get script.now.files n ≡ Some line.now }
    ensures { IfOk result (λ plain. plain ≡ new_file script.now n line.now) }
{
    let content = content_bytes(alloc, &line.content)?;
    let bytes = content.as_slice();
    let family = script.family(script.family_of(n));
    let book = Book::new(
        alloc,
        family.shape(),
        family.points(),
        script.chunk(),
        n,
        bytes.len() as u32,
    )?;
    Plain::new(alloc, book, bytes)
}
