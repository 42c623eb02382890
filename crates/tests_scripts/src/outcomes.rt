//! Reports of outcomes that no script of one client brings out.

ghost use Rattle.std.specs.Prelude.{IfOk};
ghost use Rattle.mf_client.specs.Runs.{IsSmall};

use super::texts::SCRIPT;
use mf_client::{Done, Outcome, Part, Parts, Place};
use mf_convert::Change;
use mf_io::MemorySink;
use mf_read::ReadOutcome;
use mf_reclaim::{PinCounts, ReclaimOutcome};
use mf_repair::RepairOutcome;
use mf_report::{Memory, report};
use mf_script::{Act, Script, read_script};
use mf_vault::Io;
use std::alloc::Global;
use std::test::Fail;

// The lines of a sweep with these outcomes, in turn.
static LINES: [&str; 10] = [
    "memory",
    "memory",
    "memory",
    "memory",
    "memory",
    "busy",
    "busy",
    "stopped 1 to 2 made 10",
    "reclaimed closed 1 dropped 4 pinned 0:1,1:3",
    "bytes 4 gen 0 from 4 sha256 \
    88d4266fd4e6338d13b845fcf289579d209c897823b9217da3e161936f031589",
];

fn reclaimed(alloc: Global) -> Result<Outcome, Memory> {
    let pinned = Vec::from_slice(alloc, &[(0, 1), (1, 3)])?;
    Ok(Outcome::Reclaim(ReclaimOutcome::Reclaimed {
        closed: 1,
        dropped: 4,
        pinned: PinCounts::new(pinned),
    }))
}

// A refused read that holds bytes, which no client answers.
fn refused(alloc: Global) -> Result<Outcome, Memory> {
    let bytes = Vec::from_slice(alloc, b"abcd")?;
    Ok(Outcome::Refused(ReadOutcome::Bytes {
        g: 0,
        bytes,
        from: 4,
    }))
}

// The outcome of a line.
fn outcome_of(alloc: Global, at: usize) -> Result<Outcome, Memory> {
    match at {
        0 => Ok(Outcome::Memory),
        1 => Ok(Outcome::Change(Change::Memory)),
        2 => Ok(Outcome::Refused(ReadOutcome::Memory)),
        3 => Ok(Outcome::Repair(RepairOutcome::Memory)),
        4 => Ok(Outcome::Reclaim(ReclaimOutcome::Memory)),
        5 => Ok(Outcome::Change(Change::Busy)),
        6 => Ok(Outcome::Repair(RepairOutcome::Busy)),
        7 => Ok(Outcome::Change(Change::Stopped {
            from: 1,
            to: 2,
            made: 10,
        })),
        8 => reclaimed(alloc),
        _ => refused(alloc),
    }
}

// A command of this outcome, with a part that was busy.
fn done_of(alloc: Global, outcome: Outcome) -> Result<Done, Memory>
    ensures { IfOk result (λ d. IsSmall d.io) }
{
    let parts = Vec::from_slice(
        alloc,
        &[Part {
            file: 0,
            change: Change::Busy,
        }],
    )?;
    Ok(Done {
        place: Place {
            phase: 1,
            client: 1,
            command: 2,
        },
        act: Act::Sweep,
        outcome,
        parts: Parts::new(parts),
        io: Io {
            pieces: 0,
            copies: 0,
            parities: 4,
            misses: 0,
            writes: 2,
            probes: 7,
            drops: 0,
        },
    })
}

// The report of one such command whose outcome has this text.
fn report_of(alloc: Global, outcome: &str) -> Result<Vec<u8>, Memory> {
    let mut text = Vec::from_slice(alloc, b"report 1\n1.1.2 sweep: ")?;
    text.extend_from_slice(outcome.as_bytes())?;
    text.extend_from_slice(
        b" io 0 0 4 0 2 7 0\n1.1.2 a busy\n\
        total io 0 0 4 0 2 7 0\nconverts io 0 0 4 0 2 7 0\nend\n",
    )?;
    Ok(text)
}

// Whether this is written for a command of this outcome.
fn writes(alloc: Global, script: &Script, outcome: Outcome, wanted: &[u8]) -> Result<bool, Memory> {
    let done = [done_of(alloc, outcome)?];
    let mut sink = MemorySink::new(alloc, 4096, Vec::new(alloc));
    match report(alloc, &mut sink, script, &done, &[], false) {
        Ok(()) => Ok(sink.written() == wanted),
        Err(_) => Ok(false),
    }
}

// The first outcome that has another text.
fn first_other(alloc: Global, script: &Script) -> Result<Option<usize>, Memory> {
    for (at, line) in LINES.iter().enumerate() {
        let wanted = report_of(alloc, line)?;
        if !writes(alloc, script, outcome_of(alloc, at)?, &wanted)? {
            return Ok(Some(at));
        }
    }
    Ok(None)
}

#[test]
fn outcomes_have_their_texts(rt: HostRuntime) -> Result<(), Fail> {
    let alloc = rt.alloc();
    let script = read_script(alloc, SCRIPT.as_bytes()).or(Err("refused"))?;
    assert_eq!(rt; first_other(alloc, &script)?, None);
    Ok(())
}
