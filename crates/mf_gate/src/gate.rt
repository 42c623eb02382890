//! A gate, and one actor's pass through it.
ghost use Rattle.std.specs.Prelude.{◌≡◌, ◌+◌, ◌<◌, ◌≤◌, length};
ghost use Rattle.mf_places.specs.Names.{count_of};
ghost use Rattle.mf_machine.specs.Actors.{Active, Idle};
ghost use Rattle.mf_gate.specs.Table.{bare};

use crate::board::{Board, Both, Halves, Place};
use mf_vault::Rest;

/// One file's words, and a slot for the chunk of each name.
#[derive(Drop)]
pub struct Gate {
    pub(crate) board: Board,
    pub(crate) stages: u32,
    pub(crate) closed: Vec<bool>,
    pub(crate) names: Vec<Rest>,
    ghost few: { stages ≤ 4 },
    ghost stages_are: { stages ≡ length board.shared.key.value.book.shape.stages },
    ghost words_are: { board.shared.table_id.words
        ≡ stages + 2 + count_of board.shared.key.value.book },
    ghost slots_are: { board.shared.table_id.slots ≡ count_of board.shared.key.value.book },
    ghost room: { (length closed.items ≡ stages)
        × (length names.items ≡ count_of board.shared.key.value.book) },
}

/// One actor's pass through a gate. It carries the emptied slot of the name that it has Taken.
#[derive(Drop)]
pub struct Pass {
    pub(crate) place: Place,
    ghost active: { Active place.me.0.view },
    ghost idle: { Idle place.me.0.view },
    ghost hold: { place.me.0.view.hold ≤ length place.me.0.about.book.shape.stages },
    ghost work: { place.me.0.view.work ≤ length place.me.0.about.book.shape.stages },
    ghost getting: { place.me.0.view.inside.getting ≤ count_of place.me.0.about.book },
    ghost carries: { place.me.1 ≡ bare place.me.0.view.inside.getting },
}

impl Gate {
    ghost use Rattle.mf_machine.specs.Steps.{MaySplit, MayJoin, old_half, new_half, joined};
    ghost use Rattle.mf_gate.specs.Passes.{IsAt, view};

    /// A further pass, with half the share and all that this actor has seen.
    pub fn split(&self, pass: &mut Pass) -> Pass
        requires at { IsAt pass.old self.now }
        requires may { MaySplit (view pass.old) }
        ensures at { IsAt pass.new self.now × IsAt result self.now }
        ensures old { view pass.new ≡ old_half (view pass.old) }
        ensures new { view result ≡ new_half (view pass.old) }
    {
        let place = self.board.shared.split_seat::<Halves>(&mut pass.place);
        Pass { place }
    }

    /// Takes in another pass, which has no pin, no right and no name Taken.
    pub fn join(&self, into: &mut Pass, gone: Pass)
        requires at { IsAt into.old self.now × IsAt gone self.now }
        requires may { MayJoin (view into.old) (view gone) }
        ensures at { IsAt into.new self.now }
        ensures both { view into.new ≡ joined (view into.old) (view gone) }
    {
        let Pass { place } = gone;
        self.board.shared.join_seat::<Both>(&mut into.place, place);
    }
}
