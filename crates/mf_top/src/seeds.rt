//! What the program answers to a seed.

ghost use Rattle.std.specs.Prelude.{◌≡◌, ◌≤◌, ◌∷◌, [], List, ℕ, length, map, MatchOption};
ghost use Rattle.std.specs.List.{All};
ghost use Rattle.std.specs.String.{string_bytes};
ghost use Rattle.mf_script.specs.Scripts.{IsScript};
ghost use Rattle.mf_script.specs.Seeds.{seed_text};
ghost use Rattle.mf_client.specs.declared.done.Done.{Done};
ghost use Rattle.mf_client.specs.Runs.{IsSmall};
ghost use Rattle.mf_top.specs.Answers.{seed_words, AsksNoSeed, IsRun};
ghost use Rattle.mf_top.specs.Writes.{Writes};

use crate::Status;
use crate::answers::status_of;
use crate::phases::run;
use crate::writing::write_answer;
use mf_client::{Done, Turnstile};
use mf_io::Sink;
use mf_plain::Plain;
use mf_report::summary_line;
use mf_script::{Script, from_seed};
use mf_text::decimal;
use std::alloc::Global;
use std::sync::Wait;
use std::thread::Threads;

/// The seed that the words ask for.
pub fn seed_of(words: &[String]) -> Option<u64>
    ensures { MatchOption result (AsksNoSeed (map string_bytes words.now))
        (λ n. map string_bytes words.now ≡ seed_words n) }
{
    match words {
        [word, number] => seed_in(word.as_str(), number.as_str()),
        _ => None,
    }
}

// The seed that these two words ask for.
fn seed_in(word: &str, number: &str) -> Option<u64>
    ensures { MatchOption result (AsksNoSeed (word.now ∷ number.now ∷ []))
        (λ n. word.now ∷ number.now ∷ [] ≡ seed_words n) }
{
    if word == "seed" {
        decimal(number.as_bytes())
    } else {
        None
    }
}

/// Runs the script of a seed, and writes the line that sums up its run. Says with which status the
/// call ends.
pub fn answer_seed<R: Threads + Wait + Sync, K: Sink, T: Turnstile>(
    rt: &R,
    alloc: Global,
    n: u64,
    sink: &mut K,
    turnstile: &T,
) -> Status
    ensures { (text : List ℕ) → Writes (record {
      written = K.written sink.old;
      written_now = K.written sink.new;
      faults = K.faults sink.old;
      faults_now = K.faults sink.new;
    }) (seed_words n) text result }
{
    match from_seed(alloc, n) {
        Ok(script) => answer_run_of(rt, alloc, n, &script, sink, turnstile),
        Err(_) => Status::Memory,
    }
}

// Runs the script of this seed, and writes the line that sums up its run.
fn answer_run_of<R: Threads + Wait + Sync, K: Sink, T: Turnstile>(
    rt: &R,
    alloc: Global,
    n: u64,
    script: &Script,
    sink: &mut K,
    turnstile: &T,
) -> Status
    requires { IsScript (seed_text n) script.now }
    ensures { (text : List ℕ) → Writes (record {
      written = K.written sink.old;
      written_now = K.written sink.new;
      faults = K.faults sink.old;
      faults_now = K.faults sink.new;
    }) (seed_words n) text result }
{
    match run(rt, alloc, script, turnstile) {
        Ok(ran) => write_sum(alloc, n, script, &ran.done, &ran.files, sink),
        Err(_) => Status::Memory,
    }
}

// Writes the line that sums up a run of the script of this seed.
fn write_sum<K: Sink>(
    alloc: Global,
    n: u64,
    script: &Script,
    done: &[Done],
    files: &[Plain],
    sink: &mut K,
) -> Status
    requires few { length done.now ≤ 4096 }
    requires small { All (λ (d : Done). IsSmall d.io) done.now }
    ensures { (text : List ℕ) → IsRun (seed_text n) script.now done.now files.now
        → Writes (record {
          written = K.written sink.old;
          written_now = K.written sink.new;
          faults = K.faults sink.old;
          faults_now = K.faults sink.new;
        }) (seed_words n) text result }
{
    match summary_line(alloc, n, script, done, files) {
        Ok(line) => write_answer(sink, &line, status_of(done)),
        Err(_) => Status::Memory,
    }
}
