//! The top call: what the program reads, answers and ends with.
//!
//! The words are one of the program's lists, compared word by word. A status is 0 (done), 1 (the
//! text is refused), 2 (the words are), 3 (a read failed), 4 (a write failed) or 5 (want of
//! memory). With 3 nothing is written, and with 4 a front of the answer is.
//!
//! ```text
//! let status = morph(rt, alloc, &words, &mut source, &mut sink, &Free);
//! ```
//!
//! *Proved.* `morph`, with the words `run`, `run --json`, `check` and `seed N`, and `morph_check`:
//! status and written bytes in each case, with the cause of every status but want of memory, and
//! what is left of the source. With `run` the report is that of the script's run: phase after phase
//! from its files, none of them created, to files at rest, which are the script's. Laws: words and
//! a text have one status and one answer where no command lacks memory and no phase has several
//! clients (the kernel list of an undecodable set aside); where no read and no write failed, a run
//! of a script ends with 0 or 5, a check with 0, 1 or 5, and a seed with 0 or 5; a read that names
//! no server answers the bytes, or that the file isn't there, or want of memory, or more names of
//! one stripe lost than its generation bears; in each report a chunk that is here has the digest of
//! its cell; and the conversions together read no data and no copy.
//!
//! *Only tested.* That a run with ample memory ends well; that clients run beside each other.
//!
//! *Neither.* That the store is used: a body that works a licensed report out by other means meets
//! the contract.
#![tactic(auto)]

ghost use Rattle.std.specs.Prelude.{◌≡◌, ◌∷◌, [], ℕ, map, MatchOption};
ghost use Rattle.std.specs.String.{string_bytes};
ghost use Rattle.mf_top.specs.Answers.{task_words, AsksNoTask, AsksNoSeed};
ghost use Rattle.mf_top.specs.Ends.{Ends, number_of};

mod answers;
mod laws;
mod phases;
mod seeds;
mod writing;

use answers::{answer_to_check, answer_to_run};
pub use laws::{
    conversions_read_no_data, digests_are_of_cells, ends_well, one_answer, reads_are_served,
    statuses_tell,
};
use mf_client::Turnstile;
use mf_io::{ReadAll, Sink, Source, read_all};
use mf_report::{too_long_line, words_line};
use seeds::{answer_seed, seed_of};
use std::alloc::Global;
use std::sync::Wait;
use std::thread::Threads;
use writing::write_answer;

/// The greatest number of bytes of a script.
const TEXT_LIMIT: usize = 1_048_576;

/// What the words of a call ask for.
#[derive(Clone, Copy)]
enum Task {
    /// To run a script, and to write the report as JSON or as lines.
    Run { json: bool },
    /// To try the families of a script.
    Check,
}

/// How a call ended.
#[derive(Clone, Copy)]
enum Status {
    /// The task was done, and its answer written.
    Done,
    /// The text is no script.
    Refused,
    /// The words ask for nothing that the program does.
    Words,
    /// A read failed.
    SourceFault,
    /// A write failed.
    SinkFault,
    /// Memory ran out.
    Memory,
}

/// Does what the words ask for, which stand after the program's name, and answers the program's
/// status. With the one word `run` it reads a script from the source, runs its phases one after the
/// other over files that aren't created yet, and writes the report to the sink; with `run --json`
/// it writes it as JSON. With the one word `check` it does as `morph_check`. With `seed N`, N a
/// decimal below 2^64, it reads nothing, runs the script that is drawn from N, and writes one line
/// that sums up the run. The turnstile is told of each client before each of its commands. The
/// status is:
///
/// - 0: the script was read to its end, or drawn, and its report or line was written whole; no
///   command lacked memory;
/// - 1: the text is no script, and the line that says so was written;
/// - 2: the words are others, nothing was read, and the line that says so was written;
/// - 3: a read failed, and nothing was written;
/// - 4: a write failed, and a front of the report or line was written;
/// - 5: memory ran out, and nothing was written; or a command lacked memory, and the report or line
///   of the run was written whole.
///
/// So this holds: for every accepted script, however clients' steps fall, each printed chunk digest
/// is that of the plain encoding of its file's bytes, although no conversion's ledger holds a data
/// read; every read gives the bytes written at creation, through one published generation whose
/// chunks stay until unpinned, or names more lost chunks of one stripe than that generation
/// tolerates, or an unreachable server of its command, or want of memory. That the chunks stay is a
/// law of the file machine, whose rule the files' tables keep; all else follows from this call's
/// clause. `README.md` says phrase by phrase which part says it.
pub fn morph<R: Threads + Wait + Sync, S: Source, K: Sink, T: Turnstile>(
    rt: &R,
    alloc: Global,
    words: &[String],
    source: &mut S,
    sink: &mut K,
    turnstile: &T,
) -> u8
    ensures { (status : Status) × (result ≡ number_of status) × Ends (record {
      words = map string_bytes words.now;
      left = S.left source.old;
      left_now = S.left source.new;
      faults = S.faults source.old;
      faults_now = S.faults source.new;
      output = record {
        written = K.written sink.old;
        written_now = K.written sink.new;
        faults = K.faults sink.old;
        faults_now = K.faults sink.new;
      };
    }) status }
{
    end_of(rt, alloc, words, source, sink, turnstile) as u8
}

/// Tries the families of the script that the source has left. It writes a line for each, `family ok
/// stages Q tolerance T ..` with the tolerance of each stage, or the one line `refused line L ` and
/// what is wrong there. It answers the status of `morph` with the word `check`: 0, 1, 3, 4 or 5.
pub fn morph_check<S: Source, K: Sink>(alloc: Global, source: &mut S, sink: &mut K) -> u8
    ensures { (status : Status) × (result ≡ number_of status) × Ends (record {
      words = task_words Task.Check;
      left = S.left source.old;
      left_now = S.left source.new;
      faults = S.faults source.old;
      faults_now = S.faults source.new;
      output = record {
        written = K.written sink.old;
        written_now = K.written sink.new;
        faults = K.faults sink.old;
        faults_now = K.faults sink.new;
      };
    }) status }
{
    end_of_check(alloc, source, sink) as u8
}

// How a call with these words ends.
fn end_of<R: Threads + Wait + Sync, S: Source, K: Sink, T: Turnstile>(
    rt: &R,
    alloc: Global,
    words: &[String],
    source: &mut S,
    sink: &mut K,
    turnstile: &T,
) -> Status
    ensures { Ends (record {
      words = map string_bytes words.now;
      left = S.left source.old;
      left_now = S.left source.new;
      faults = S.faults source.old;
      faults_now = S.faults source.new;
      output = record {
        written = K.written sink.old;
        written_now = K.written sink.new;
        faults = K.faults sink.old;
        faults_now = K.faults sink.new;
      };
    }) result }
{
    match seed_of(words) {
        Some(n) => answer_seed(rt, alloc, n, sink, turnstile),
        None => end_of_words(rt, alloc, words, source, sink, turnstile),
    }
}

// The same where the words ask for no seed.
fn end_of_words<R: Threads + Wait + Sync, S: Source, K: Sink, T: Turnstile>(
    rt: &R,
    alloc: Global,
    words: &[String],
    source: &mut S,
    sink: &mut K,
    turnstile: &T,
) -> Status
    requires { AsksNoSeed (map string_bytes words.now) }
    ensures { Ends (record {
      words = map string_bytes words.now;
      left = S.left source.old;
      left_now = S.left source.new;
      faults = S.faults source.old;
      faults_now = S.faults source.new;
      output = record {
        written = K.written sink.old;
        written_now = K.written sink.new;
        faults = K.faults sink.old;
        faults_now = K.faults sink.new;
      };
    }) result }
{
    match task_of(words) {
        Some(Task::Run { json }) => end_of_run(rt, alloc, json, source, sink, turnstile),
        Some(Task::Check) => end_of_check(alloc, source, sink),
        None => write_answer(sink, words_line(), Status::Words),
    }
}

// What the words ask for.
fn task_of(words: &[String]) -> Option<Task>
    ensures { MatchOption result (AsksNoTask (map string_bytes words.now))
        (λ task. map string_bytes words.now ≡ task_words task) }
{
    match words {
        [word] => task_named(word.as_str()),
        [word, option] => task_with(word.as_str(), option.as_str()),
        _ => None,
    }
}

// The task of this name.
fn task_named(word: &str) -> Option<Task>
    ensures { MatchOption result (AsksNoTask (word.now ∷ []))
        (λ task. word.now ∷ [] ≡ task_words task) }
{
    if word == "run" {
        Some(Task::Run { json: false })
    } else if word == "check" {
        Some(Task::Check)
    } else {
        None
    }
}

// The task of this name with this option.
fn task_with(word: &str, option: &str) -> Option<Task>
    ensures { MatchOption result (AsksNoTask (word.now ∷ option.now ∷ []))
        (λ task. word.now ∷ option.now ∷ [] ≡ task_words task) }
{
    if word == "run" && option == "--json" {
        Some(Task::Run { json: true })
    } else {
        None
    }
}

// How the run of a script ends.
fn end_of_run<R: Threads + Wait + Sync, S: Source, K: Sink, T: Turnstile>(
    rt: &R,
    alloc: Global,
    json: bool,
    source: &mut S,
    sink: &mut K,
    turnstile: &T,
) -> Status
    ensures { Ends (record {
      words = task_words (Task.Run json);
      left = S.left source.old;
      left_now = S.left source.new;
      faults = S.faults source.old;
      faults_now = S.faults source.new;
      output = record {
        written = K.written sink.old;
        written_now = K.written sink.new;
        faults = K.faults sink.old;
        faults_now = K.faults sink.new;
      };
    }) result }
{
    match read_all(alloc, source, TEXT_LIMIT) {
        Ok(text) => answer_to_run(rt, alloc, &text, json, sink, turnstile),
        Err(ReadAll::TooLong) => write_answer(sink, too_long_line(), Status::Refused),
        Err(ReadAll::Fault) => Status::SourceFault,
        Err(ReadAll::Memory) => Status::Memory,
    }
}

// How the check of a script's family ends.
fn end_of_check<S: Source, K: Sink>(alloc: Global, source: &mut S, sink: &mut K) -> Status
    ensures { Ends (record {
      words = task_words Task.Check;
      left = S.left source.old;
      left_now = S.left source.new;
      faults = S.faults source.old;
      faults_now = S.faults source.new;
      output = record {
        written = K.written sink.old;
        written_now = K.written sink.new;
        faults = K.faults sink.old;
        faults_now = K.faults sink.new;
      };
    }) result }
{
    match read_all(alloc, source, TEXT_LIMIT) {
        Ok(text) => answer_to_check(alloc, &text, sink),
        Err(ReadAll::TooLong) => write_answer(sink, too_long_line(), Status::Refused),
        Err(ReadAll::Fault) => Status::SourceFault,
        Err(ReadAll::Memory) => Status::Memory,
    }
}
