//! Making a gate, and taking it apart.
ghost use Rattle.std.specs.Prelude.{◌≡◌, List, IfOk, IfErr};
ghost use Rattle.mf_machine.specs.Worlds.{first_view};
ghost use Rattle.mf_gate.specs.Table.{facts_of, file_of};
ghost use Rattle.mf_gate.specs.Passes.{IsAt, about, told, view};
ghost use Rattle.mf_gate.specs.Resting.{AtRest, IsLast, Leaves, about_of};

use crate::ending::{close_from, rests_from};
use crate::gate::{Gate, Pass};
use crate::known::About;
use crate::making::{Parts, empty, parts_of};
use atomic_table::Table;
use mf_vault::{Book, Losses, Note, Rest};
use std::alloc::Global;

// The file at rest of these parts.
fn known_of(
    book: &Book,
    bytes: &Note<[u8; 0]>,
    losses: &Losses,
    published: u32,
    closed: &[bool],
    names: &[Rest],
) -> Note<About>
    ensures { result.value
        ≡ about_of book.now bytes.now.value losses.now published closed.now names.now }
{
    let file: Note<About> = Note::pick(&(book, bytes));
    let lined: Note<About> = Note::pick(&(&file, losses));
    let numbered: Note<About> = Note::pick(&(&lined, published, closed));
    Note::pick(&(&numbered, names))
}

impl Gate {
    /// The gate of a file at rest, and its first pass, which has seen all that the file holds. The
    /// file's bytes are known to contracts alone. An error is want of memory, and hands the names
    /// back.
    pub fn new(
        alloc: Global,
        book: &Book,
        bytes: &Note<[u8; 0]>,
        losses: &Losses,
        published: u32,
        closed: &[bool],
        mut names: Vec<Rest>,
    ) -> Result<(Gate, Pass), Vec<Rest>>
        requires { AtRest (about_of book.now bytes.now.value losses.now published closed.now
            names.items) }
        ensures made { IfOk result (λ t. IsAt t.1 t.0
            × (about t.0 ≡ about_of book.now bytes.now.value losses.now published closed.now
            names.items)
            × (view t.1 ≡ first_view (file_of (about t.0)) (facts_of (about t.0)).opening)) }
        ensures back { IfErr result (λ back. back.items ≡ names.items) }
    {
        let Ok(
            Parts {
                words,
                slots,
                closed: room,
            },
        ) = parts_of(alloc, published, closed, names.as_slice())
        else {
            return Err(names);
        };
        let stages = book.stages();
        let _count = book.count();
        let known = known_of(book, bytes, losses, published, closed, names.as_slice());
        match Table::new(alloc, words.as_slice(), slots, &known) {
            Err(_refused) => Err(names),
            Ok((board, place)) => {
                empty(&mut names);
                let gate = Gate {
                    board,
                    stages,
                    closed: room,
                    names,
                };
                Ok((gate, Pass { place }))
            }
        }
    }

    /// What is left of a file: the published number, which generations are closed, and the names.
    /// The pass is the last one, with no pin, no right and no name Taken.
    pub fn rest(self, pass: Pass) -> (u32, Vec<bool>, Vec<Rest>)
        requires at { IsAt pass self }
        requires last { IsLast (view pass) }
        ensures { Leaves (told pass) (view pass) result.0 result.1.items result.2.items }
    {
        let Gate {
            board,
            stages,
            mut closed,
            mut names,
        } = self;
        let Pass { place } = pass;
        let mut ended = board.close_with(place);
        let number = ended.word(0) as u32;
        close_from(&ended, &mut closed);
        rests_from(&mut ended, stages as usize + 2, &mut names);
        ended.free();
        (number, closed, names)
    }
}
