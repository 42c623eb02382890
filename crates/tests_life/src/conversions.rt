//! Conversions of a file by its only actor, worked by hand.
ghost use Rattle.std.specs.Prelude.{◌≡◌, ◌<◌, ◌≤◌, length};
ghost use Rattle.mf_places.specs.Servers.{no_servers};
ghost use Rattle.mf_vault.specs.Conditions.{IsIdle, IsOfFamily, Leaves};

use crate::stages::{assert_no_row, family_of};
use mf_check::Family;
use mf_convert::{Change, convert, create, remove};
use mf_plain::{Plain, PlainAccess};
use mf_shape::Stage;
use mf_vault::{Book, Fetch, Io, Losses, Memory, Name, Servers, Slot, count_io};
use std::alloc::Global;
use std::test::Fail;

// The files: each is of a family and has a text.
static FILES: [(Growth, &[u8]); 8] = [
    (Growth::Wider, b"abcd"),
    (Growth::Wider, b"abcde"),
    (Growth::Wider, b""),
    (Growth::BarerFirst, b"abcd"),
    (Growth::Wider, b"abcd"),
    (Growth::Wider, b"abcd"),
    (Growth::Wider, b"abcd"),
    (Growth::ThreeTimes, b"abcdefghijklm"),
];

// How a family grows: from copies and stripes of two chunks to stripes of four, at once or with the
// copies gone first; or from stripes of two chunks to stripes of six. Each stage has two parities.
enum Growth {
    Wider,
    BarerFirst,
    ThreeTimes,
}

macro_rules! stage {
    ($width:literal, $copies:literal) => {
        Stage {
            width: $width,
            parities: 2,
            copies: $copies,
        }
    };
}

// A convert of a file of the table: up to which stage, which servers are cut off, after how many
// chunk operations it stops, what comes of it, and how often it read data, copies and parities,
// missed, wrote and probed.
struct Turn {
    file: usize,
    upto: u32,
    away: u128,
    stop: Option<u32>,
    change: Change,
    io: [u64; 6],
}

static TURNS: [Turn; 17] = [
    Turn {
        file: 0,
        upto: 1,
        away: 0,
        stop: None,
        change: Change::Converted {
            from: 0,
            to: 1,
            made: 2,
        },
        io: [0, 0, 4, 0, 2, 6],
    },
    Turn {
        file: 0,
        upto: 1,
        away: 0,
        stop: None,
        change: Change::Last { g: 1 },
        io: [0, 0, 0, 0, 0, 0],
    },
    Turn {
        file: 1,
        upto: 1,
        away: 0,
        stop: None,
        change: Change::Converted {
            from: 0,
            to: 1,
            made: 4,
        },
        io: [0, 0, 6, 0, 4, 9],
    },
    Turn {
        file: 2,
        upto: 1,
        away: 0,
        stop: Some(0),
        change: Change::Converted {
            from: 0,
            to: 1,
            made: 0,
        },
        io: [0, 0, 0, 0, 0, 0],
    },
    Turn {
        file: 3,
        upto: 1,
        away: 0,
        stop: None,
        change: Change::Converted {
            from: 0,
            to: 1,
            made: 0,
        },
        io: [0, 0, 0, 0, 0, 8],
    },
    Turn {
        file: 3,
        upto: 1,
        away: 0,
        stop: None,
        change: Change::Last { g: 1 },
        io: [0, 0, 0, 0, 0, 0],
    },
    Turn {
        file: 3,
        upto: 2,
        away: 0,
        stop: None,
        change: Change::Converted {
            from: 1,
            to: 2,
            made: 2,
        },
        io: [0, 0, 4, 0, 2, 6],
    },
    Turn {
        file: 4,
        upto: 1,
        away: 32,
        stop: None,
        change: Change::Unreachable {
            name: Name::Parity(4, 0, 1),
            server: 5,
        },
        io: [0, 0, 0, 0, 0, 6],
    },
    Turn {
        file: 4,
        upto: 1,
        away: 16,
        stop: None,
        change: Change::Unreachable {
            name: Name::Parity(4, 0, 0),
            server: 4,
        },
        io: [0, 0, 0, 0, 0, 5],
    },
    Turn {
        file: 4,
        upto: 1,
        away: 0,
        stop: None,
        change: Change::Converted {
            from: 0,
            to: 1,
            made: 2,
        },
        io: [0, 0, 4, 0, 2, 6],
    },
    Turn {
        file: 5,
        upto: 1,
        away: 0,
        stop: Some(9),
        change: Change::Stopped {
            from: 0,
            to: 1,
            made: 1,
        },
        io: [0, 0, 2, 0, 1, 6],
    },
    Turn {
        file: 5,
        upto: 1,
        away: 0,
        stop: None,
        change: Change::Converted {
            from: 0,
            to: 1,
            made: 1,
        },
        io: [0, 0, 2, 0, 1, 6],
    },
    Turn {
        file: 6,
        upto: 1,
        away: 0,
        stop: Some(0),
        change: Change::Stopped {
            from: 0,
            to: 1,
            made: 0,
        },
        io: [0, 0, 0, 0, 0, 0],
    },
    Turn {
        file: 6,
        upto: 1,
        away: 0,
        stop: Some(11),
        change: Change::Stopped {
            from: 0,
            to: 1,
            made: 1,
        },
        io: [0, 0, 4, 0, 1, 6],
    },
    Turn {
        file: 6,
        upto: 1,
        away: 0,
        stop: Some(6),
        change: Change::Stopped {
            from: 0,
            to: 1,
            made: 0,
        },
        io: [0, 0, 0, 0, 0, 6],
    },
    Turn {
        file: 6,
        upto: 1,
        away: 0,
        stop: Some(9),
        change: Change::Converted {
            from: 0,
            to: 1,
            made: 1,
        },
        io: [0, 0, 2, 0, 1, 6],
    },
    Turn {
        file: 7,
        upto: 1,
        away: 0,
        stop: None,
        change: Change::Converted {
            from: 0,
            to: 1,
            made: 6,
        },
        io: [0, 0, 14, 0, 6, 19],
    },
];

// Creates the file.
pub fn created<A: Fetch>(alloc: Global, access: &mut A, family: &Family, text: &[u8]) -> Change
    requires idle { IsIdle (A.actor access.old) }
    requires family { IsOfFamily family.now.shape family.now.points
        (A.actor access.old).facts.book }
    requires text { text.now ≡ (A.actor access.old).facts.bytes }
    requires reached { (A.actor access.old).cut ≡ no_servers }
    ensures { Leaves (A.actor access.old) (A.actor access.new) }
{
    create(alloc, access, family, text)
}

// Converts the file, where it has the stage.
pub fn converted<A: Fetch>(
    alloc: Global,
    access: &mut A,
    family: &Family,
    upto: u32,
    stop: Option<u32>,
) -> Option<Change>
    requires idle { IsIdle (A.actor access.old) }
    requires family { IsOfFamily family.now.shape family.now.points
        (A.actor access.old).facts.book }
    ensures { Leaves (A.actor access.old) (A.actor access.new) }
{
    if upto < access.book().stages() {
        Some(convert(alloc, access, family, upto, stop))
    } else {
        None
    }
}

// The numbers of the second count that the first one hasn't.
fn since(before: Io, after: Io) -> [u64; 6] {
    [
        after.pieces.wrapping_sub(before.pieces),
        after.copies.wrapping_sub(before.copies),
        after.parities.wrapping_sub(before.parities),
        after.misses.wrapping_sub(before.misses),
        after.writes.wrapping_sub(before.writes),
        after.probes.wrapping_sub(before.probes),
    ]
}

// Whether this is what a turn is to come to.
fn is_wanted(turn: &Turn, change: Option<Change>, io: [u64; 6]) -> bool {
    change == Some(turn.change) && io == turn.io
}

// Whether a turn comes to what was worked out.
fn goes<A: Fetch>(alloc: Global, access: &mut A, family: &Family, turn: &Turn) -> bool
    requires idle { IsIdle (A.actor access.old) }
    requires family { IsOfFamily family.now.shape family.now.points
        (A.actor access.old).facts.book }
    ensures idle { IsIdle (A.actor access.new) }
    ensures family { IsOfFamily family.now.shape family.now.points
        (A.actor access.new).facts.book }
{
    access.cut_off(Servers { bits: turn.away });
    let before = count_io(access.ledger());
    let change = converted(alloc, access, family, turn.upto, turn.stop);
    let io = since(before, count_io(access.ledger()));
    let is_free = access.pinned(Slot::Work).is_none();
    is_free & is_wanted(turn, change, io)
}

// The first turn of a file of the table that comes to something else.
fn follow<A: Fetch>(alloc: Global, access: &mut A, family: &Family, file: usize) -> Option<usize>
    requires idle { IsIdle (A.actor access.old) }
    requires family { IsOfFamily family.now.shape family.now.points
        (A.actor access.old).facts.book }
    ensures idle { IsIdle (A.actor access.new) }
{
    for (row, turn) in TURNS.iter().enumerate() {
        if turn.file == file && !goes(alloc, access, family, turn) {
            return Some(row);
        }
    }
    None
}

// Whether the file is absent, is created, goes by its turns, and is removed at last.
fn lives<A: Fetch>(alloc: Global, access: &mut A, family: &Family, text: &[u8], file: usize) -> bool
    requires idle { IsIdle (A.actor access.old) }
    requires family { IsOfFamily family.now.shape family.now.points
        (A.actor access.old).facts.book }
    requires text { text.now ≡ (A.actor access.old).facts.bytes }
    requires reached { (A.actor access.old).cut ≡ no_servers }
{
    converted(alloc, access, family, 1, None) == Some(Change::Absent)
        && created(alloc, access, family, text) == Change::Created
        && follow(alloc, access, family, file).is_none()
        && remove(access) == Change::RemovedNow
}

static WIDER: [Stage; 2] = [stage!(2, 1), stage!(4, 0)];

static BARER_FIRST: [Stage; 3] = [stage!(2, 1), stage!(2, 0), stage!(4, 0)];

static THREE_TIMES: [Stage; 2] = [stage!(2, 0), stage!(6, 0)];

// The stages of a family that grows so.
fn stages_of(growth: &Growth) -> &'static [Stage] {
    match growth {
        Growth::Wider => &WIDER,
        Growth::BarerFirst => &BARER_FIRST,
        Growth::ThreeTimes => &THREE_TIMES,
    }
}

// Whether the file of the family with this text lives as the table says.
fn lives_of(alloc: Global, family: &Family, text: &[u8], file: usize) -> Result<bool, Memory>
    requires { length text.now ≤ 64 }
{
    let length = text.len() as u32;
    let book = Book::new(alloc, family.shape(), family.points(), 1, 0, length)?;
    let plain = Plain::new(alloc, book, text)?;
    let losses = Losses::new(alloc);
    let mut access = PlainAccess::new(alloc, plain, 0, &losses);
    Ok(lives(alloc, &mut access, family, text, file))
}

fn first_other(alloc: Global) -> Result<Option<usize>, Memory> {
    for (file, (growth, text)) in FILES.iter().enumerate() {
        let family = family_of(alloc, stages_of(growth), 8)?;
        if text.len() > 64 || !lives_of(alloc, &family, text, file)? {
            return Ok(Some(file));
        }
    }
    Ok(None)
}

#[test]
fn conversions_worked_by_hand(rt: HostRuntime) -> Result<(), Fail> {
    assert_no_row(&rt, first_other(rt.alloc())?);
    Ok(())
}
