//! A journal in a file: `append` adds records until it has added enough or is killed, and `show`
//! tells how many are found. Record n is the number n in four bytes and some bytes behind it.
#![tactic(auto)]

use mf_file::{FileDisk, Host, open, open_journal};
use mf_journal::Journal;
use std::alloc::AllocError;
use std::process::ExitCode;
use std::{fs, io};

const USAGE: &str = "journal_file append PATH COUNT
opens the journal of this file, or makes one, and adds so many records
prints the number of each record that is acknowledged
journal_file show PATH
opens the journal of this file, and prints how many records it has";

/// Why the program ends before its end.
#[derive(Drop)]
enum Fault {
    Words,
    Output,
    Memory,
    /// The file wasn't opened, or has no journal.
    Open,
    /// A record wasn't added.
    Append,
    /// A record isn't the one of its number.
    Record,
}

impl From<io::Error> for Fault {
    fn from(_error: io::Error) -> Fault {
        Fault::Output
    }
}

impl From<AllocError> for Fault {
    fn from(_error: AllocError) -> Fault {
        Fault::Memory
    }
}

/// Record n.
fn record(rt: &HostRuntime, n: u32) -> Result<Vec<u8>, Fault> {
    let mut bytes = Vec::new(rt.alloc());
    bytes.extend_from_slice(&n.to_be_bytes())?;
    bytes.resize(4 + n as usize % 5_000, 0xA5)?;
    Ok(bytes)
}

/// The journal of a file, and the number of its records.
fn opened(rt: &HostRuntime, path: &str) -> Result<(Journal<FileDisk<Host>>, u32), Fault> {
    let Ok((journal, records)) = open_journal(rt, path) else {
        return Err(Fault::Open);
    };
    let mut count = 0u32;
    for bytes in &records {
        if *bytes != record(rt, count)? {
            return Err(Fault::Record);
        }
        count = count.saturating_add(1);
    }
    Ok((journal, count))
}

/// A journal without records.
fn made(rt: &HostRuntime, path: &str) -> Result<(Journal<FileDisk<Host>>, u32), Fault> {
    let Ok(disk) = open(rt, path) else {
        return Err(Fault::Open);
    };
    match Journal::format(disk) {
        Ok(journal) => Ok((journal, 0)),
        Err(_failed) => Err(Fault::Open),
    }
}

fn append(rt: &HostRuntime, path: &str, count: u32) -> Result<(), Fault> {
    let (mut journal, from) = if fs::exists(rt, path)? {
        opened(rt, path)?
    } else {
        made(rt, path)?
    };
    for n in from..from.saturating_add(count) {
        let bytes = record(rt, n)?;
        if journal.append(rt.alloc(), &bytes).is_err() {
            return Err(Fault::Append);
        }
        println!(rt; "{n}")?;
    }
    Ok(())
}

fn run(rt: &HostRuntime) -> Result<(), Fault> {
    let mut words = Vec::new(rt.alloc());
    for word in std::env::args(rt)?.skip(1) {
        if words.push(word).is_err() {
            return Err(Fault::Memory);
        }
    }
    if words.is_empty() {
        println!(rt; "{USAGE}")?;
        return Ok(());
    }
    if words.len() == 2 && words[0].as_str() == "show" {
        let (_journal, count) = opened(rt, words[1].as_str())?;
        println!(rt; "{count}")?;
        return Ok(());
    }
    if words.len() == 3 && words[0].as_str() == "append" {
        if let Ok(count) = words[2].as_str().parse::<u32>() {
            return append(rt, words[1].as_str(), count);
        }
    }
    Err(Fault::Words)
}

fn main(rt: HostRuntime) -> ExitCode {
    match run(&rt) {
        Ok(()) => ExitCode::from(0),
        Err(Fault::Words) => ExitCode::from(2),
        Err(Fault::Output) => ExitCode::from(4),
        Err(Fault::Memory) => ExitCode::from(5),
        Err(Fault::Open) => ExitCode::from(6),
        Err(Fault::Append) => ExitCode::from(7),
        Err(Fault::Record) => ExitCode::from(8),
    }
}
