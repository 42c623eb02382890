//! A run of three records that is stopped at each of its calls in turn.
use mf_journal::{Journal, MemoryDisk, append_all};
use std::alloc::{AllocError, Global};
use std::test::Fail;

/// The call from which on all fail, the records that are acknowledged, and those that are found.
const ROWS: [(u32, usize, usize); 14] = [
    (0, 3, 3),
    (3, 0, 0),
    (4, 0, 0),
    (5, 0, 1),
    (6, 0, 1),
    (7, 1, 1),
    (8, 1, 1),
    (9, 1, 2),
    (10, 1, 2),
    (11, 2, 2),
    (12, 2, 2),
    (13, 2, 3),
    (14, 2, 3),
    (15, 3, 3),
];

fn payloads(alloc: Global) -> Result<Vec<Vec<u8>>, AllocError> {
    let mut payloads = Vec::new(alloc);
    payloads.push(Vec::from_slice(alloc, &[1, 0xA5, 3])?)?;
    payloads.push(Vec::new(alloc))?;
    payloads.push(Vec::from_slice(alloc, &[7, 0, 0xEE, 0xA5, 9])?)?;
    Ok(payloads)
}

// Whether these are the first so many payloads.
fn are_first(records: &[Vec<u8>], payloads: &[Vec<u8>], count: usize) -> bool {
    if records.len() != count || payloads.len() < count {
        return false;
    }
    for i in 0..records.len() {
        if i >= payloads.len() || records[i].as_slice() != payloads[i].as_slice() {
            return false;
        }
    }
    true
}

// Whether one more record is found behind those that were found.
fn goes_on(alloc: Global, mut journal: Journal<MemoryDisk>, found: usize) -> bool {
    if journal.append(alloc, &[9, 9]).is_err() {
        return false;
    }
    match Journal::open(alloc, journal.into_disk().after_crash()) {
        Ok((_journal, records)) => {
            found < records.len() && records[found].as_slice() == [9, 9].as_slice()
        }
        Err(_failed) => false,
    }
}

fn is_as_told(alloc: Global, row: (u32, usize, usize)) -> Result<bool, AllocError> {
    let payloads = payloads(alloc)?;
    let Ok(mut journal) = Journal::format(MemoryDisk::new(alloc, row.0)) else {
        return Ok(false);
    };
    let acknowledged = match append_all(&mut journal, alloc, &payloads) {
        Ok(()) => payloads.len(),
        Err((count, _)) => count,
    };
    match Journal::open(alloc, journal.into_disk().after_crash()) {
        Ok((journal, records)) => Ok(
            acknowledged == row.1
                && are_first(&records, &payloads, row.2)
                && goes_on(alloc, journal, row.2),
        ),
        Err(_failed) => Ok(false),
    }
}

fn first_other_row(alloc: Global) -> Result<Option<u32>, AllocError> {
    for row in ROWS {
        if !is_as_told(alloc, row)? {
            return Ok(Some(row.0));
        }
    }
    Ok(None)
}

#[test]
fn each_call_in_turn(rt: HostRuntime) -> Result<(), Fail> {
    assert_eq!(rt; first_other_row(rt.alloc())?, None);
    Ok(())
}

// How many of the two calls of `format` make it fail where they do.
fn unformatted(alloc: Global) -> usize {
    let mut count: usize = 0;
    for stop in 1..=2 {
        if Journal::format(MemoryDisk::new(alloc, stop)).is_err() {
            count = count.saturating_add(1);
        }
    }
    count
}

#[test]
fn a_disk_that_is_not_formatted(rt: HostRuntime) -> Result<(), Fail> {
    assert_eq!(rt; unformatted(rt.alloc()), 2);
    Ok(())
}
