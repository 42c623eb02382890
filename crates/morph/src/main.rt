//! Morph: a block file store whose redundancy changes over a file's life. The program reads a
//! script from standard input, runs it or checks its family of codes, and writes the report or the
//! line of the check to standard output.
#![tactic(auto)]

use mf_client::Free;
use mf_io::{StdSink, StdSource};
use mf_top::morph;
use std::alloc::AllocError;
use std::io::ErrorKind;
use std::process::ExitCode;
use std::rt::Env;

/// The status for want of memory.
const NO_MEMORY: u8 = 5;

/// The words after the program's name; none where one of them isn't UTF-8, since the program has no
/// such word.
fn words_of(rt: &(impl Env + AllocGlobal)) -> Result<Vec<String>, AllocError> {
    let mut words = Vec::new(rt.alloc());
    let args = match std::env::args(rt) {
        Ok(args) => args,
        Err(error) if error.kind() == ErrorKind::OutOfMemory => return Err(AllocError),
        Err(_) => return Ok(words),
    };
    for word in args.skip(1) {
        words.push(word)?;
    }
    Ok(words)
}

fn main(rt: HostRuntime) -> ExitCode {
    let status = match words_of(&rt) {
        Ok(words) => {
            let mut source = StdSource::new(rt.stdin());
            let mut sink = StdSink::new(rt.stdout());
            morph(&rt, rt.alloc(), &words, &mut source, &mut sink, &Free)
        }
        Err(_) => NO_MEMORY,
    };
    ExitCode::from(status)
}
