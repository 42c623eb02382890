//! A journal of three records, each byte of which is changed in turn.
use mf_journal::{Disk, Journal, MemoryDisk, OpenFault};
use std::alloc::{AllocError, Global};
use std::test::Fail;

/// The journal: its mark, three records, and a shut gate.
const JOURNAL: [u8; 30] = [
    77, 79, 82, 80, 72, 74, 76, 49, 0xA5, 0, 0, 0, 3, 1, 2, 3, 0xA5, 0, 0, 0, 0, 0xA5, 0, 0, 0, 2,
    8, 9, 0, 0,
];

/// The payloads, and the places of the gates.
static PAYLOADS: [&[u8]; 3] = [&[1, 2, 3], &[], &[8, 9]];

const GATES: [usize; 4] = [8, 16, 21, 28];

// How many whole records stand in front of this byte.
fn whole_before(at: usize) -> usize {
    let mut count = 0;
    for gate in 1..GATES.len() {
        if GATES[gate] <= at {
            count = gate;
        }
    }
    count
}

fn has_front(records: &[Vec<u8>], count: usize) -> bool {
    for i in 0..count {
        if i >= records.len() || i >= 3 || records[i].as_slice() != PAYLOADS[i] {
            return false;
        }
    }
    true
}

fn changed(alloc: Global, at: usize, flip: u8) -> Result<MemoryDisk, AllocError> {
    let mut bytes = Vec::from_slice(alloc, &JOURNAL)?;
    if at < bytes.len() {
        bytes[at] ^= flip;
    }
    let mut disk = MemoryDisk::new(alloc, 0);
    match disk.write_at(0, &bytes) {
        Ok(()) => Ok(disk),
        Err(_) => Err(AllocError),
    }
}

// Whether this is the fault of a journal that is changed behind so many whole records: a changed
// mark is none, and else the gate of the changed record or of a later one is named.
fn is_its_fault(fault: OpenFault, at: usize, whole: usize) -> bool {
    match fault {
        OpenFault::NotJournal => at < 8,
        OpenFault::Bad(place) => at >= 8 && whole < GATES.len() && place >= GATES[whole] as u64,
        _ => false,
    }
}

// Whether the records in front of the change are found, or the fault is told.
fn is_right(alloc: Global, at: usize, flip: u8) -> Result<bool, AllocError> {
    let whole = whole_before(at);
    match Journal::open(alloc, changed(alloc, at, flip)?) {
        Ok((_journal, records)) => Ok(at >= 8 && has_front(&records, whole)),
        Err((_disk, fault)) => Ok(is_its_fault(fault, at, whole)),
    }
}

fn first_wrong_byte(alloc: Global) -> Result<Option<usize>, AllocError> {
    for at in 0..JOURNAL.len() {
        for flip in [1, 0x80, 0xA5] {
            if !is_right(alloc, at, flip)? {
                return Ok(Some(at));
            }
        }
    }
    Ok(None)
}

#[test]
fn each_byte_in_turn(rt: HostRuntime) -> Result<(), Fail> {
    assert_eq!(rt; first_wrong_byte(rt.alloc())?, None);
    Ok(())
}
