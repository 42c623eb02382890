//! The book of a file of 1,024 chunks, and of the last file number: its names in order, and where
//! they lie.
use crate::rows::assert_no_row;
use mf_places::Name::{Copy, Data, Parity};
use mf_places::{Book, Memory, Name};
use mf_shape::{Shape, Stage};
use std::alloc::{AllocError, Global};
use std::test::Fail;

const STAGES: [Stage; 3] = [
    Stage {
        width: 4,
        parities: 4,
        copies: 2,
    },
    Stage {
        width: 16,
        parities: 4,
        copies: 1,
    },
    Stage {
        width: 64,
        parities: 3,
        copies: 0,
    },
];

// All names of a file of 1,024 chunks, in order, and the column of each: data and copies over the
// greatest width, which is 64, a copy moved on by the greatest width with copies, which is 16, and
// the parities behind.
fn names(alloc: Global) -> Result<Vec<(Name, u32)>, Memory> {
    let mut names = Vec::new(alloc);
    for i in 0..1_024u32 {
        names.push((Data(i), i % 64))?;
    }
    for c in 0..2u32 {
        for i in 0..1_024u32 {
            names.push((Copy(c, i), (i + 16 * (c + 1)) % 64))?;
        }
    }
    for (width, stripes, parities) in [(4, 256, 4), (16, 64, 4), (64, 16, 3)] {
        for j in 0..stripes {
            for p in 0..parities {
                names.push((Parity(width, j, p), 64 + p))?;
            }
        }
    }
    Ok(names)
}

fn book_of(alloc: Global) -> Result<Book, Memory> {
    let Ok(shape) = Shape::new(alloc, &STAGES, 70) else {
        return Err(AllocError);
    };
    Book::new(alloc, &shape, &[1, 2, 4, 8], 1_024, 127, 1_048_576)
}

fn first_other_name(book: &Book, names: &[(Name, u32)]) -> Option<usize> {
    for n in 0..book.count() {
        let name = book.name(n);
        let placed = (name, (book.server(name) + 70 - 127 % 70) % 70);
        if Some(placed) != names.get(n as usize).copied() || book.number(name) != Some(n) {
            return Some(n as usize);
        }
    }
    None
}

// Generations with their stripes, the number of a last stripe's pieces, and how many names they
// have.
static GENERATIONS: [(u32, u32, u32, usize); 3] = [
    (0, 256, 4, 4_096),
    (1, 64, 16, 2_304),
    (2, 16, 64, 1_072),
];

fn first_other_generation(book: &Book) -> Result<Option<usize>, Memory> {
    for (row, (g, stripes, pieces, names)) in GENERATIONS.iter().enumerate() {
        if *g >= book.stages() || *stripes < 1 || book.stripes(*g) != *stripes {
            return Ok(Some(row));
        }
        if book.pieces(*g, *stripes - 1) != *pieces || book.names(*g)?.len() != *names {
            return Ok(Some(row));
        }
    }
    Ok(None)
}

#[test]
fn the_book_of_a_file_at_its_limits(rt: HostRuntime) -> Result<(), Fail> {
    let book = book_of(rt.alloc())?;
    let names = names(rt.alloc())?;
    assert!(rt; book.count() as usize == names.len());
    assert_no_row(&rt, first_other_name(&book, &names));
    assert_no_row(&rt, first_other_generation(&book)?);
    Ok(())
}
