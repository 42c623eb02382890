//! Ends that fail at each of their calls in turn, in pieces of seven bytes.
ghost use Rattle.std.specs.Prelude.{◌≤◌, IfOk};

use super::texts::{REPORT, SCRIPT};
use mf_client::Free;
use mf_io::{MemorySink, MemorySource, Sink, Source, StdSink};
use mf_top::morph;
use std::alloc::{AllocError, Global};
use std::io;
use std::io::Write;
use std::sync::Wait;
use std::test::Fail;
use std::thread::Threads;

/// The calls that read the script to its end, the last of which finds the end, and those that write
/// its report.
const READS: u32 = 17;

const WRITES: u32 = 33;

/// Takes seven bytes of a piece, and none at its second call.
#[derive(Drop)]
struct Stuck {
    calls: u32,
}

impl Write for Stuck {
    fn write(&mut self, buf: &[u8]) -> io::Result<usize> {
        self.calls = self.calls.saturating_add(1);
        Ok(if self.calls == 2 { 0 } else { buf.len().min(7) })
    }

    fn flush(&mut self) -> io::Result<()> {
        Ok(())
    }
}

fn source_of(alloc: Global, fails: u32) -> Result<MemorySource, AllocError> {
    let bytes = Vec::from_slice(alloc, SCRIPT.as_bytes())?;
    Ok(MemorySource::new(bytes, 7, Vec::from_slice(alloc, &[fails])?))
}

fn sink_of(alloc: Global, fails: u32) -> Result<MemorySink, AllocError> {
    Ok(MemorySink::new(alloc, 7, Vec::from_slice(alloc, &[fails])?))
}

/// The status of a run.
fn run<S: Source, K: Sink>(
    rt: &(impl Threads + Wait + Sync),
    alloc: Global,
    source: &mut S,
    sink: &mut K,
) -> Result<u8, AllocError> {
    let mut words = Vec::new(alloc);
    words.push(String::from_str(alloc, "run")?)?;
    Ok(morph(rt, alloc, &words, source, sink, &Free))
}

/// Whether the run whose read of this number fails ends with 3 and nothing written, and with the
/// whole report where there is no such read.
fn is_read(rt: &(impl Threads + Wait + Sync), alloc: Global, n: u32) -> Result<bool, AllocError> {
    let mut source = source_of(alloc, n)?;
    let mut sink = sink_of(alloc, 0)?;
    let status = run(rt, alloc, &mut source, &mut sink)?;
    let (wanted, text) = if n <= READS { (3, "") } else { (0, REPORT) };
    Ok(status == wanted && sink.written() == text.as_bytes())
}

/// Whether the run whose write of this number fails ends with 4 and a front of the report, which is
/// what the writes before it wrote, and with the whole report where there is no such write.
fn is_written(
    rt: &(impl Threads + Wait + Sync),
    alloc: Global,
    n: u32,
) -> Result<bool, AllocError> {
    let mut source = source_of(alloc, 0)?;
    let mut sink = sink_of(alloc, n)?;
    let status = run(rt, alloc, &mut source, &mut sink)?;
    let front = REPORT
        .as_bytes()
        .iter()
        .take(n.saturating_sub(1) as usize * 7);
    Ok(status == (if n <= WRITES { 4 } else { 0 }) && sink.written().iter().eq(front))
}

/// The number of the first call that ends its run otherwise, of those up to the first behind the
/// last.
fn first_other(
    rt: &(impl Threads + Wait + Sync),
    alloc: Global,
) -> Result<Option<u32>, AllocError> {
    for n in 1..=READS + 1 {
        if !is_read(rt, alloc, n)? {
            return Ok(Some(n));
        }
    }
    for n in 1..=WRITES + 1 {
        if !is_written(rt, alloc, n)? {
            return Ok(Some(n));
        }
    }
    Ok(None)
}

/// The status of a run whose writer takes nothing at its second call.
fn run_stuck(rt: &(impl Threads + Wait + Sync), alloc: Global) -> Result<u8, AllocError> {
    let mut source = source_of(alloc, 0)?;
    let mut sink = StdSink::new(Stuck { calls: 0 });
    run(rt, alloc, &mut source, &mut sink)
}

#[test]
fn each_call_fails_in_turn(rt: HostRuntime) -> Result<(), Fail> {
    assert_eq!(rt; first_other(&rt, rt.alloc())?, None);
    Ok(())
}

#[test]
fn a_writer_that_takes_nothing(rt: HostRuntime) -> Result<(), Fail> {
    assert_eq!(rt; run_stuck(&rt, rt.alloc())?, 4);
    Ok(())
}
