//! What the program answers to a text.

ghost use Rattle.std.specs.Prelude.{◌≡◌, List, ℕ, IsTrue, ◌↔◌, if◌then◌else◌};
ghost use Rattle.std.specs.List.{list_any};
ghost use Rattle.mf_script.specs.Faults.{IsScriptFault};
ghost use Rattle.mf_script.specs.Scripts.{IsScript};
ghost use Rattle.mf_script.specs.Sound.{IsSound};
ghost use Rattle.mf_client.specs.Lacks.{lacks_memory};
ghost use Rattle.mf_top.specs.Answers.{task_words};
ghost use Rattle.mf_top.specs.Writes.{Writes};

use crate::phases::run;
use crate::writing::write_answer;
use crate::{Status, Task};
use mf_client::{Done, Turnstile};
use mf_io::Sink;
use mf_report::{ReportFault, accepted_lines, refused_line, report};
use mf_script::{Kind, Script, ScriptFault, read_script};
use std::alloc::Global;
use std::sync::Wait;
use std::thread::Threads;

/// Runs the script that the text is, and writes the report, as JSON or as lines; or writes what is
/// wrong with the text. Says with which status the call ends.
pub fn answer_to_run<R: Threads + Wait + Sync, K: Sink, T: Turnstile>(
    rt: &R,
    alloc: Global,
    text: &[u8],
    json: bool,
    sink: &mut K,
    turnstile: &T,
) -> Status
    ensures { Writes (record {
      written = K.written sink.old;
      written_now = K.written sink.new;
      faults = K.faults sink.old;
      faults_now = K.faults sink.new;
    }) (task_words (Task.Run json)) text.now result }
{
    match read_script(alloc, text) {
        Ok(script) => answer_run(rt, alloc, &script, json, sink, turnstile),
        Err(fault) => answer_fault(alloc, &fault, sink),
    }
}

/// Writes the lines of the families of the script that the text is, or what is wrong with the text.
/// Says with which status the call ends.
pub fn answer_to_check<K: Sink>(alloc: Global, text: &[u8], sink: &mut K) -> Status
    ensures { Writes (record {
      written = K.written sink.old;
      written_now = K.written sink.new;
      faults = K.faults sink.old;
      faults_now = K.faults sink.new;
    }) (task_words Task.Check) text.now result }
{
    match read_script(alloc, text) {
        Ok(script) => answer_check(alloc, &script, sink),
        Err(fault) => answer_fault(alloc, &fault, sink),
    }
}

// Runs the script, and writes the report, as JSON or as lines.
fn answer_run<R: Threads + Wait + Sync, K: Sink, T: Turnstile>(
    rt: &R,
    alloc: Global,
    script: &Script,
    json: bool,
    sink: &mut K,
    turnstile: &T,
) -> Status
    requires { IsSound script.now }
    ensures { (text : List ℕ) → IsScript text script.now
        → Writes (record {
          written = K.written sink.old;
          written_now = K.written sink.new;
          faults = K.faults sink.old;
          faults_now = K.faults sink.new;
        }) (task_words (Task.Run json)) text result }
{
    let Ok(ran) = run(rt, alloc, script, turnstile) else {
        return Status::Memory;
    };
    match report(alloc, sink, script, &ran.done, &ran.files, json) {
        Ok(()) => status_of(&ran.done),
        Err(ReportFault::Sink) => Status::SinkFault,
        Err(ReportFault::Memory) => Status::Memory,
    }
}

/// The status of a run whose report was written whole.
pub fn status_of(done: &[Done]) -> Status
    ensures { result ≡ (if list_any lacks_memory done.now then Status.Memory else Status.Done) }
{
    if lack_memory(done) {
        Status::Memory
    } else {
        Status::Done
    }
}

// Whether memory ran out in one of these commands.
fn lack_memory(done: &[Done]) -> bool
    ensures { result ≡ list_any lacks_memory done.now }
{
    done.iter().any(|command| command.lacks_memory())
}

// Writes the lines of the script's families.
fn answer_check<K: Sink>(alloc: Global, script: &Script, sink: &mut K) -> Status
    ensures { (text : List ℕ) → IsScript text script.now
        → Writes (record {
          written = K.written sink.old;
          written_now = K.written sink.new;
          faults = K.faults sink.old;
          faults_now = K.faults sink.new;
        }) (task_words Task.Check) text result }
{
    match accepted_lines(alloc, script) {
        Ok(lines) => write_answer(sink, &lines, Status::Done),
        Err(_) => Status::Memory,
    }
}

// Writes what is wrong with a text.
fn answer_fault<K: Sink>(alloc: Global, fault: &ScriptFault, sink: &mut K) -> Status
    ensures { (task : Task) (text : List ℕ) → IsScriptFault text fault.now
        → Writes (record {
          written = K.written sink.old;
          written_now = K.written sink.new;
          faults = K.faults sink.old;
          faults_now = K.faults sink.new;
        }) (task_words task) text result }
{
    if is_memory(&fault.kind) {
        return Status::Memory;
    }
    match refused_line(alloc, fault) {
        Ok(line) => write_answer(sink, &line, Status::Refused),
        Err(_) => Status::Memory,
    }
}

// Whether a script was refused for want of memory.
fn is_memory(kind: &Kind) -> bool
    ensures { IsTrue result ↔ (kind.now ≡ Kind.Memory) }
{
    matches!(kind, Kind::Memory)
}
