//! What each kind of entry adds to the counts of a ledger.
use mf_vault::{Answer, Closed, Entry, Io, Memory, Name, Op, count_io};
use std::alloc::Global;
use std::test::Fail;

// An entry, and which of the seven numbers it raises, where it raises one.
static KINDS: [(Op, Name, Answer, Option<usize>); 14] = [
    (Op::Get, Name::Data(0), Answer::Here, Some(0)),
    (Op::Get, Name::Copy(0, 1), Answer::Here, Some(1)),
    (Op::Get, Name::Parity(2, 0, 1), Answer::Here, Some(2)),
    (Op::Get, Name::Data(0), Answer::Lost(11), Some(3)),
    (Op::Get, Name::Parity(2, 0, 1), Answer::Away(5), Some(3)),
    (Op::Put, Name::Data(0), Answer::Done, Some(4)),
    (Op::Restore, Name::Copy(0, 1), Answer::Done, Some(4)),
    (Op::Probe, Name::Data(0), Answer::Unborn, Some(5)),
    (Op::Probe, Name::Data(0), Answer::Lost(11), Some(5)),
    (Op::Probe, Name::Data(0), Answer::Away(0), Some(5)),
    (Op::Discard, Name::Data(0), Answer::Done, Some(6)),
    (Op::Discard, Name::Data(0), Answer::Nothing, None),
    (Op::Lose, Name::Data(0), Answer::Done, None),
    (Op::Lose, Name::Data(0), Answer::Nothing, None),
];

fn numbers(io: Io) -> [u64; 7] {
    [
        io.pieces,
        io.copies,
        io.parities,
        io.misses,
        io.writes,
        io.probes,
        io.drops,
    ]
}

static CLOSED: [Closed; 3] = [Closed::Done, Closed::Pins(2), Closed::Already];

// The first kind of entry that counts otherwise alone.
fn first_other() -> Option<usize> {
    for (row, (op, name, answer, kind)) in KINDS.iter().enumerate() {
        let entry = Entry::Chunk {
            op: *op,
            name: *name,
            answer: *answer,
        };
        for (place, count) in numbers(count_io(&[entry])).iter().enumerate() {
            if *count != u64::from(*kind == Some(place)) {
                return Some(row);
            }
        }
    }
    None
}

fn first_counted() -> Option<usize> {
    for (row, closed) in CLOSED.iter().enumerate() {
        let entry = Entry::Close {
            g: 0,
            closed: *closed,
        };
        if numbers(count_io(&[entry])) != [0; 7] {
            return Some(row);
        }
    }
    None
}

// An entry of each kind.
fn all_kinds(alloc: Global) -> Result<Vec<Entry>, Memory> {
    let mut entries = Vec::new(alloc);
    for (op, name, answer, _) in &KINDS {
        entries.push(Entry::Chunk {
            op: *op,
            name: *name,
            answer: *answer,
        })?;
    }
    for closed in &CLOSED {
        entries.push(Entry::Close {
            g: 0,
            closed: *closed,
        })?;
    }
    Ok(entries)
}

#[test]
fn each_kind_of_entry_counts_once(rt: HostRuntime) -> Result<(), Fail> {
    assert_eq!(rt; (first_other(), first_counted()), (None, None));
    let entries = all_kinds(rt.alloc())?;
    assert!(rt; numbers(count_io(entries.as_slice())) == [1, 1, 1, 2, 2, 3, 1]);
    Ok(())
}
