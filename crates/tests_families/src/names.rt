//! The names of small files, in order, with their servers, stripes and pieces; sets of servers.
ghost use Rattle.std.specs.Prelude.{◌<◌, ◌≤◌};

use crate::rows::assert_no_row;
use mf_places::Name::{Copy, Data, Parity};
use mf_places::{Book, Losses, Memory, Name, Servers};
use mf_shape::{Shape, Stage};
use std::alloc::{AllocError, Global};
use std::test::Fail;

const STAGES: [Stage; 2] = [
    Stage {
        width: 2,
        parities: 2,
        copies: 1,
    },
    Stage {
        width: 4,
        parities: 2,
        copies: 0,
    },
];

// The names of a file of four chunks, in their order, with their servers.
static FOUR: [(Name, u32); 14] = [
    (Data(0), 0),
    (Data(1), 1),
    (Data(2), 2),
    (Data(3), 3),
    (Copy(0, 0), 2),
    (Copy(0, 1), 3),
    (Copy(0, 2), 0),
    (Copy(0, 3), 1),
    (Parity(2, 0, 0), 4),
    (Parity(2, 0, 1), 5),
    (Parity(2, 1, 0), 4),
    (Parity(2, 1, 1), 5),
    (Parity(4, 0, 0), 4),
    (Parity(4, 0, 1), 5),
];

static ABSENT: [Name; 7] = [
    Data(4),
    Copy(0, 4),
    Copy(1, 0),
    Parity(2, 2, 0),
    Parity(2, 0, 2),
    Parity(3, 0, 0),
    Parity(0, 0, 0),
];

static ON_SERVERS: [(u32, &[Name]); 2] = [
    (0, &[Data(0), Copy(0, 2)]),
    (4, &[Parity(2, 0, 0), Parity(2, 1, 0), Parity(4, 0, 0)]),
];

// Stages and stripes with their names.
static FOUR_OF: [(u32, u32, &[Name]); 2] = [
    (
        0,
        1,
        &[
            Data(2),
            Data(3),
            Copy(0, 2),
            Copy(0, 3),
            Parity(2, 1, 0),
            Parity(2, 1, 1),
        ],
    ),
    (
        1,
        0,
        &[
            Data(0),
            Data(1),
            Data(2),
            Data(3),
            Parity(4, 0, 0),
            Parity(4, 0, 1),
        ],
    ),
];

static FIVE_OF: [(u32, u32, &[Name]); 3] = [
    (
        0,
        2,
        &[Data(4), Copy(0, 4), Parity(2, 2, 0), Parity(2, 2, 1)],
    ),
    (1, 1, &[Data(4), Parity(4, 1, 0), Parity(4, 1, 1)]),
    (1, 2, &[]),
];

// Stages with their stripes, the losses that they bear, and how many names they have.
static STAGES_OF_FOUR: [(u32, u32, u32, usize); 2] = [(0, 2, 3, 12), (1, 1, 2, 6)];

static STAGES_OF_FIVE: [(u32, u32, u32, usize); 2] = [(0, 3, 3, 16), (1, 2, 2, 9)];

// Stages and stripes with their pieces.
static PIECES: [(u32, u32, u32); 4] = [(0, 1, 2), (0, 2, 1), (1, 0, 4), (1, 1, 1)];

fn book_of(alloc: Global, file: u32, length: u32) -> Result<Book, Memory>
    requires { (file < 128) × (length ≤ 1024) }
{
    let Ok(shape) = Shape::new(alloc, &STAGES, 6) else {
        return Err(AllocError);
    };
    Book::new(alloc, &shape, &[1, 2], 1, file, length)
}

fn first_other_name(book: &Book) -> Option<usize> {
    for n in 0..book.count() {
        let name = book.name(n);
        let placed = Some((name, book.server(name)));
        if placed != FOUR.get(n as usize).copied() || book.number(name) != Some(n) {
            return Some(n as usize);
        }
    }
    None
}

fn first_had(book: &Book) -> Option<usize> {
    for (row, name) in ABSENT.iter().enumerate() {
        if book.number(*name).is_some() {
            return Some(row);
        }
    }
    None
}

fn first_other_server(book: &Book) -> Result<Option<usize>, Memory> {
    for (row, (server, names)) in ON_SERVERS.iter().enumerate() {
        if book.names_on(*server)?.as_slice() != *names {
            return Ok(Some(row));
        }
    }
    Ok(None)
}

fn first_other_stripe(
    book: &Book,
    wanted: &[(u32, u32, &[Name])],
) -> Result<Option<usize>, Memory> {
    for (row, (g, stripe, names)) in wanted.iter().enumerate() {
        if *g >= book.stages() || book.names_of(*g, *stripe)?.as_slice() != *names {
            return Ok(Some(row));
        }
    }
    Ok(None)
}

fn first_other_stage(
    book: &Book,
    wanted: &[(u32, u32, u32, usize)],
) -> Result<Option<usize>, Memory> {
    for (row, (g, stripes, tolerance, names)) in wanted.iter().enumerate() {
        if *g >= book.stages() || book.stripes(*g) != *stripes || book.tolerance(*g) != *tolerance {
            return Ok(Some(row));
        }
        if book.names(*g)?.len() != *names {
            return Ok(Some(row));
        }
    }
    Ok(None)
}

fn first_other_pieces(book: &Book) -> Option<usize> {
    for (row, (g, stripe, pieces)) in PIECES.iter().enumerate() {
        if *g >= book.stages() || *stripe >= book.stripes(*g) {
            return Some(row);
        }
        if book.pieces(*g, *stripe) != *pieces {
            return Some(row);
        }
    }
    None
}

fn is_of_stripe_1(book: &Book, name: Name) -> bool {
    1 < book.stages() && book.holds(0, name) && !book.holds(1, name) && book.stripe_of(0, name) == 1
}

fn is_of_four(book: &Book) -> bool {
    book.count() == 14
        && book.stages() == 2
        && book.chunk() == 1
        && book.length() == 4
        && book.chunks() == 4
        && book.points() == [1, 2].as_slice()
}

#[test]
fn names_of_four_chunks(rt: HostRuntime) -> Result<(), Fail> {
    let book = book_of(rt.alloc(), 0, 4)?;
    assert!(rt; is_of_four(&book) && is_of_stripe_1(&book, Copy(0, 2)));
    assert_no_row(&rt, first_other_name(&book));
    assert_no_row(&rt, first_had(&book));
    assert_no_row(&rt, first_other_server(&book)?);
    assert_no_row(&rt, first_other_stage(&book, &STAGES_OF_FOUR)?);
    assert_no_row(&rt, first_other_stripe(&book, &FOUR_OF)?);
    Ok(())
}

#[test]
fn names_of_five_chunks(rt: HostRuntime) -> Result<(), Fail> {
    let book = book_of(rt.alloc(), 127, 5)?;
    assert!(rt; book.count() == 20);
    assert_no_row(&rt, first_other_stage(&book, &STAGES_OF_FIVE)?);
    assert_no_row(&rt, first_other_stripe(&book, &FIVE_OF)?);
    assert_no_row(&rt, first_other_pieces(&book));
    Ok(())
}

static SERVERS: [(u32, bool); 5] = [(0, true), (1, false), (2, true), (127, true), (128, false)];

fn first_other_in(away: Servers) -> Option<usize> {
    for (row, (server, is_in)) in SERVERS.iter().enumerate() {
        if away.has(*server) != *is_in {
            return Some(row);
        }
    }
    None
}

// Sets of servers, and their servers in order.
static LISTS: [(&[u32], &[u32]); 2] = [(&[127, 0, 2, 128, 2], &[0, 2, 127]), (&[], &[])];

fn first_other_list(alloc: Global) -> Result<Option<usize>, Memory> {
    for (row, (servers, wanted)) in LISTS.iter().enumerate() {
        if Servers::of(servers).list(alloc)?.as_slice() != *wanted {
            return Ok(Some(row));
        }
    }
    Ok(None)
}

// Lose lines are taken.
fn push_two(alloc: Global) -> Result<(), Memory> {
    let mut losses = Losses::new(alloc);
    losses.push(10, 0)?;
    losses.push(11, 127)
}

#[test]
fn sets_of_servers(rt: HostRuntime) -> Result<(), Fail> {
    let away = Servers::of(&[127, 0, 2, 128, 2]);
    assert!(rt; away.bits == 1 << 127 | 5 && Servers::none().bits == 0);
    assert_no_row(&rt, first_other_in(away));
    assert_no_row(&rt, first_other_list(rt.alloc())?);
    push_two(rt.alloc())?;
    Ok(())
}
