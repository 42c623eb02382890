//! Gets for one place of a stripe, each with room made for its entry.
ghost use Rattle.std.specs.Prelude.{◌≡◌, ◌+◌, ◌<◌, ◌≤◌, [], ◌∷◌, None, IfErr, OnOk};
ghost use Rattle.mf_shape.specs.Stages.{stage_at};
ghost use Rattle.mf_places.specs.Facts.{chunks_of};
ghost use Rattle.mf_vault.specs.Facts.{cell_of, stages};
ghost use Rattle.mf_vault.specs.May.{MayGet};
ghost use Rattle.mf_read.specs.Asking.{homes_of};
ghost use Rattle.mf_read.specs.Groups.{Asks, AsksAt, IsReader, IsPlace};
ghost use Rattle.mf_read.specs.Groups.{had_of, is_missed, names_at, cell_at};

use mf_decode::Place;
use mf_kernel::{Chunk, Memory};
use mf_shape::Stage;
use mf_vault::{Fetch, Got, Name};
use std::alloc::AllocError;

// What memory was wanted for: an entry of the ledger, or to share the chunk of a name.
#[derive(Clone, Copy, Drop)]
pub(crate) enum Wanting {
    Room,
    Share(Name),
}

// Where an asking stopped, and for want of what memory.
#[derive(Clone, Copy, Drop)]
pub(crate) struct Stop {
    pub(crate) place: Place,
    pub(crate) wanting: Wanting,
}

// Stage g of the file's family.
pub(crate) fn stage<A: Fetch>(access: &A, g: u32) -> Stage
    requires { g < stages (A.actor access.now).facts }
    ensures { result ≡ stage_at (A.actor access.now).facts.book.shape.stages g }
{
    access.book().shape().stages()[g as usize]
}

// What an answer comes to.
fn had(name: Name, answer: Got) -> Result<Option<Chunk>, Wanting>
    ensures { result ≡ had_of name answer }
{
    match answer {
        Got::Here(chunk) => Ok(Some(chunk)),
        Got::Lost(_) => Ok(None),
        Got::Away(_) => Ok(None),
        Got::Memory => Err(Wanting::Share(name)),
    }
}

// Whether no chunk was had, and no memory wanted.
fn missed(answer: &Result<Option<Chunk>, Wanting>) -> bool
    ensures { result ≡ is_missed answer.now }
{
    match answer {
        Ok(None) => true,
        Ok(Some(_)) => false,
        Err(_) => false,
    }
}

// Asks for a name.
fn ask<A: Fetch>(access: &mut A, name: Name) -> Result<Option<Chunk>, Wanting>
    requires { MayGet name (A.actor access.old) }
    ensures { Asks (name ∷ []) (cell_of (A.actor access.old).facts name) result
        (A.actor access.old) (A.actor access.new) }
{
    if access.reserve(1).is_err() {
        return Err(Wanting::Room);
    }
    let answer = access.get(name);
    had(name, answer)
}

// Asks for chunk i where generation g has it, until it is Here.
fn ask_chunk<A: Fetch>(access: &mut A, g: u32, j: u32, i: u32) -> Result<Option<Chunk>, Wanting>
    requires reader { IsReader g j (A.actor access.old) }
    requires chunk { i < chunks_of (A.actor access.old).facts.book }
    ensures { Asks (homes_of (A.actor access.old).facts.book g i)
        (cell_of (A.actor access.old).facts (Name.Data i)) result
        (A.actor access.old) (A.actor access.new) }
{
    let copies = stage(access, g).copies;
    let answer = ask(access, Name::Data(i));
    if !missed(&answer) {
        return answer;
    }
    for c in 0..copies {
        let answer = ask(access, Name::Copy(c, i));
        if !missed(&answer) {
            return answer;
        }
    }
    Ok(None)
}

// Asks for a place of stripe j of generation g.
fn ask_place<A: Fetch>(
    access: &mut A,
    g: u32,
    j: u32,
    place: Place,
) -> Result<Option<Chunk>, Wanting>
    requires reader { IsReader g j (A.actor access.old) }
    requires place { IsPlace (A.actor access.old).facts.book g j place }
    ensures { Asks (names_at (A.actor access.old).facts.book g j place)
        (cell_at (A.actor access.old).facts g j place) result
        (A.actor access.old) (A.actor access.new) }
{
    let width = stage(access, g).width;
    match place {
        Place::Piece(t) => ask_chunk(access, g, j, j * width + t),
        Place::Parity(p) => ask(access, Name::Parity(width, j, p)),
    }
}

// Asks for a place, and notes why it stopped.
pub(crate) fn ask_at<A: Fetch>(
    access: &mut A,
    stopped: &mut Option<Stop>,
    g: u32,
    j: u32,
    place: Place,
) -> Result<Option<Chunk>, Memory>
    requires reader { IsReader g j (A.actor access.old) }
    requires place { IsPlace (A.actor access.old).facts.book g j place }
    requires going { stopped.old ≡ None }
    ensures { AsksAt g j place result stopped.new (A.actor access.old) (A.actor access.new) }
{
    match ask_place(access, g, j, place) {
        Ok(found) => Ok(found),
        Err(wanting) => {
            *stopped = Some(Stop { place, wanting });
            Err(AllocError)
        }
    }
}
