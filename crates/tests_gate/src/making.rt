//! The file is made, and becomes a gate.
ghost use Rattle.std.specs.Prelude.{◌≡◌, [], ◌∷◌, IfOk};
ghost use Rattle.mf_machine.specs.Words.{whole_share};
ghost use Rattle.mf_vault.specs.declared.answers.Rest.TheVariants as rest;
ghost use Rattle.mf_gate.specs.Passes.{view};
ghost use Rattle.tests_gate.specs.Files.{book_ab, names_ab};
ghost use Rattle.tests_gate.specs.Frames.{IsPlaced};

use crate::site::{SERVERS, Site, line_of};
use mf_gate::{Gate, Pass};
use mf_places::LoseLine;
use mf_shape::{Shape, Stage};
use mf_vault::{Book, Chunk, Losses, Memory, Note, Rest};
use std::alloc::{AllocError, Global};
use std::test::Fail;

const STAGES: [Stage; 3] = [
    Stage {
        width: 1,
        parities: 1,
        copies: 1,
    },
    Stage {
        width: 1,
        parities: 1,
        copies: 0,
    },
    Stage {
        width: 2,
        parities: 1,
        copies: 0,
    },
];

// The book of the bytes ab, in chunks of one byte.
fn book(alloc: Global) -> Result<Book, Fail>
    ensures { IfOk result (λ book. book ≡ book_ab) }
{
    let Ok(shape) = Shape::new(alloc, &STAGES, SERVERS) else {
        return Err(AllocError.into());
    };
    Ok(Book::new(alloc, &shape, &[1], 1, 0, 2)?)
}

// A name with a chunk of this byte.
fn here(alloc: Global, byte: u8) -> Result<Rest, Memory>
    ensures { IfOk result (λ name. name ≡ rest.Here (byte ∷ [])) }
{
    Ok(Rest::Here(Chunk::new(alloc, vec![in alloc; byte; 1]?)?))
}

// All names, with the chunks of `CHUNKS`.
fn names(alloc: Global) -> Result<Vec<Rest>, Memory>
    ensures { IfOk result (λ names. names.items ≡ names_ab) }
{
    let mut names = Vec::new(alloc);
    names.push(here(alloc, 97)?)?;
    names.push(here(alloc, 98)?)?;
    names.push(here(alloc, 97)?)?;
    names.push(here(alloc, 98)?)?;
    names.push(here(alloc, 97)?)?;
    names.push(here(alloc, 98)?)?;
    names.push(here(alloc, 3)?)?;
    Ok(names)
}

// A lose line for each server, and the same lines as a list that code can read.
fn lines_of(alloc: Global) -> Result<(Losses, Vec<LoseLine>), Memory>
    ensures { IfOk result (λ t. t.1.items ≡ t.0) }
{
    let mut losses = Losses::new(alloc);
    let mut lines = Vec::new(alloc);
    for server in 0..SERVERS {
        let line = line_of(server);
        losses.push(line, server)?;
        lines.push(LoseLine { line, server })?;
    }
    Ok((losses, lines))
}

// The file among threads, and its first pass.
pub(crate) fn new_site(alloc: Global) -> Result<(Site, Pass), Fail>
    ensures placed { IfOk result (λ t. IsPlaced 0 0 t.1 t.0.gate) }
    ensures share { IfOk result (λ t. (view t.1).share ≡ whole_share) }
{
    let book = book(alloc)?;
    let names = names(alloc)?;
    let (losses, lines) = lines_of(alloc)?;
    let bytes: Note<[u8; 0]> = Note::pick(&());
    let made = Gate::new(alloc, &book, &bytes, &losses, 1, &[false; 3], names);
    let Ok((gate, pass)) = made else {
        return Err(AllocError.into());
    };
    Ok((Site { gate, book, lines }, pass))
}
