//! Sources and sinks in memory and over std: pieces, and calls that fail.
ghost use Rattle.std.specs.Prelude.{◌<◌};

use crate::rows::assert_no_row;
use mf_io::{MemorySink, MemorySource, ReadAll, StdSource, read_all, write_all};
use std::alloc::{AllocError, Global};
use std::test::Fail;

// The limit, the call that fails, and how many bytes are read, or why none are. Three calls read
// five bytes in pieces of two, and a fourth finds the end.
static READS: [(usize, u32, Result<usize, ReadAll>); 6] = [
    (9, 0, Ok(5)),
    (5, 0, Ok(5)),
    (4, 0, Err(ReadAll::TooLong)),
    (9, 2, Err(ReadAll::Fault)),
    (9, 4, Err(ReadAll::Fault)),
    (9, 5, Ok(5)),
];

fn is_wanted(read: &Result<Vec<u8>, ReadAll>, wanted: &Result<usize, ReadAll>) -> bool {
    match (read, wanted) {
        (Ok(text), Ok(length)) => text.len() == *length,
        (Err(ReadAll::TooLong), Err(ReadAll::TooLong)) => true,
        (Err(ReadAll::Fault), Err(ReadAll::Fault)) => true,
        _ => false,
    }
}

fn source_of(alloc: Global, failing: u32) -> Result<MemorySource, AllocError> {
    let bytes = Vec::from_slice(alloc, b"bytes")?;
    Ok(MemorySource::new(bytes, 2, vec![in alloc; failing]?))
}

fn first_other_read(alloc: Global) -> Result<Option<usize>, AllocError> {
    for (row, (limit, failing, wanted)) in READS.iter().enumerate() {
        let mut source = source_of(alloc, *failing)?;
        if !is_wanted(&read_all(alloc, &mut source, *limit), wanted) {
            return Ok(Some(row));
        }
    }
    Ok(None)
}

// What is written to a sink in turn, whether that is done, and what was written then. Two calls
// write five bytes in pieces of three, and the third fails.
static WRITES: [(&[u8], bool, &[u8]); 2] = [(b"bytes", true, b"bytes"), (b"more", false, b"bytes")];

fn first_other_write(alloc: Global) -> Result<Option<usize>, AllocError> {
    let mut sink = MemorySink::new(alloc, 3, vec![in alloc; 3]?);
    for (row, (piece, is_done, wanted)) in WRITES.iter().enumerate() {
        if write_all(&mut sink, piece).is_ok() != *is_done || sink.written() != *wanted {
            return Ok(Some(row));
        }
    }
    Ok(None)
}

fn is_read_by_std(alloc: Global) -> bool {
    let mut source = StdSource::new(b"two lines\nof text\n".as_slice());
    match read_all(alloc, &mut source, 18) {
        Ok(text) => text.as_slice() == b"two lines\nof text\n".as_slice(),
        Err(_) => false,
    }
}

#[test]
fn pieces_and_failing_calls(rt: HostRuntime) -> Result<(), Fail> {
    assert_no_row(&rt, first_other_read(rt.alloc())?);
    assert_no_row(&rt, first_other_write(rt.alloc())?);
    assert!(rt; is_read_by_std(rt.alloc()));
    Ok(())
}
