//! The table, its rule, and what a step on a word tells.

use crate::known::{About, Known};
use atomic_table::{Join, Play, Seat, Split, Table, TableRule};
use mf_vault::{Chunk, Note};
use std::alloc::Global;
use std::marker::{Brand, PhantomData};

/// The rule of a gate's table: that of the file machine.
pub struct GateRule;

impl TableRule<Option<Chunk>, Known, Note<About>> for GateRule {
    ghost use Rattle.mf_gate.specs.Table.{Keeps, first};

    ghost holds = { Keeps };

    ghost first = { first };
}

pub type Board = Table<Option<Chunk>, Known, Note<About>, GateRule, Global>;

pub type Place = Seat<Option<Chunk>, Known>;

// A step on a word. Its caller picks the row.
pub(crate) trait Stepping {
    ghost use Rattle.mf_machine.specs.Worlds.{Row};

    ghost does: { Row };
}

impl Stepping for Brand {
    ghost use Rattle.mf_machine.specs.Steps.{look_row};

    ghost does = { look_row };
}

// What such a step tells: it made the row, and met the value that it found.
pub(crate) struct OfRow<D: Stepping> {
    of: PhantomData<D>,
}

impl<D: Stepping> Play<Option<Chunk>, Known> for OfRow<D> {
    ghost use Rattle.mf_gate.specs.Table.{Makes};

    ghost then = { λ _ me x me'. Makes D.does x me me' };
}

// What a step that doesn't find the value tells.
pub(crate) struct Sets<D: Stepping> {
    of: PhantomData<D>,
}

impl<D: Stepping> Play<Option<Chunk>, Known> for Sets<D> {
    ghost use Rattle.std.specs.Prelude.{ℕ};
    ghost use Rattle.mf_gate.specs.Table.{Makes};

    ghost then = { λ _ me _ me'. (x : ℕ) × Makes D.does x me me' };
}

// How a seat is cut in two.
pub(crate) struct Halves;

impl Split<Known> for Halves {
    ghost use Rattle.mf_gate.specs.Table.{old_half, new_half};

    ghost left = { old_half };

    ghost right = { new_half };
}

// How a seat takes in another.
pub(crate) struct Both;

impl Join<Known> for Both {
    ghost use Rattle.mf_gate.specs.Table.{joined, spent};

    ghost both = { joined };

    ghost spent = { spent };
}
