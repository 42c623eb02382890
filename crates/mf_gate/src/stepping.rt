//! One step on a word, of any row.
ghost use Rattle.std.specs.Prelude.{◌≡◌, ℕ, ◌+◌, ◌<◌, ◌==◌, ◌%◌, ◌-◌, ◌^◌};
ghost use prog.Atomic.{either};
ghost use Rattle.mf_gate.specs.Table.{Makes, Takes};
ghost use Rattle.mf_gate.specs.Rows.{word_in, row_at};
ghost use Rattle.mf_gate.specs.Passes.{about};

use crate::board::{OfRow, Place, Sets, Stepping};
use crate::deed::Deed;
use crate::gate::Gate;
use std::marker::Brand;

impl Gate {
    // The word of a step.
    fn word(&self, deed: Deed) -> usize
        ensures { result ≡ word_in self.now.stages deed }
    {
        let names = self.stages as usize + 2;
        match deed {
            Deed::Look | Deed::Publish(_) => 0,
            Deed::Begin | Deed::End => 1,
            Deed::Pin(_, g) | Deed::Unpin(_, g) | Deed::Close(g) => g as usize + 2,
            Deed::See(n)
            | Deed::Take(n)
            | Deed::Give(n)
            | Deed::Birth(n)
            | Deed::Born(n)
            | Deed::Lose(n, _)
            | Deed::Lost(n, _)
            | Deed::Retake(n)
            | Deed::Restored(n)
            | Deed::Drop(n)
            | Deed::DropAgain(n)
            | Deed::Dropped(n) => names + n as usize,
        }
    }

    // Loads the word.
    pub(crate) fn load(&self, place: &mut Place, deed: Deed) -> u64
        requires at { place.old.table_id ≡ self.now.board.shared.table_id }
        requires word { word_in self.now.stages deed < self.now.board.shared.table_id.words }
        requires may { Takes (about self.now) (row_at place.old.me deed)
            self.now.board.shared.table_id.slots place.old.id place.old.me
            (word_in self.now.stages deed) (λ x. x) }
        ensures at { (place.new.table_id ≡ place.old.table_id) × (place.new.id ≡ place.old.id) }
        ensures row { Makes (row_at place.old.me deed) result place.old.me place.new.me }
    {
        let word = self.word(deed);
        self.load_as::<Brand>(place, word, deed)
    }

    fn load_as<D: Stepping>(&self, place: &mut Place, word: usize, _deed: Deed) -> u64
        requires at { place.old.table_id ≡ self.now.board.shared.table_id }
        requires word { word < self.now.board.shared.table_id.words }
        requires may { Takes (about self.now) D.does
            self.now.board.shared.table_id.slots place.old.id place.old.me word (λ x. x) }
        ensures at { (place.new.table_id ≡ place.old.table_id) × (place.new.id ≡ place.old.id) }
        ensures row { Makes D.does result place.old.me place.new.me }
    {
        self.board.shared.load::<OfRow<D>>(place, word)
    }

    // Adds 1 to the word.
    pub(crate) fn add(&self, place: &mut Place, deed: Deed) -> u64
        requires at { place.old.table_id ≡ self.now.board.shared.table_id }
        requires word { word_in self.now.stages deed < self.now.board.shared.table_id.words }
        requires may { Takes (about self.now) (row_at place.old.me deed)
            self.now.board.shared.table_id.slots place.old.id place.old.me
            (word_in self.now.stages deed) (λ x. (x + 1) % 2 ^ 64) }
        ensures at { (place.new.table_id ≡ place.old.table_id) × (place.new.id ≡ place.old.id) }
        ensures row { Makes (row_at place.old.me deed) result place.old.me place.new.me }
    {
        let word = self.word(deed);
        self.add_as::<Brand>(place, word, deed)
    }

    fn add_as<D: Stepping>(&self, place: &mut Place, word: usize, _deed: Deed) -> u64
        requires at { place.old.table_id ≡ self.now.board.shared.table_id }
        requires word { word < self.now.board.shared.table_id.words }
        requires may { Takes (about self.now) D.does
            self.now.board.shared.table_id.slots place.old.id place.old.me word
            (λ x. (x + 1) % 2 ^ 64) }
        ensures at { (place.new.table_id ≡ place.old.table_id) × (place.new.id ≡ place.old.id) }
        ensures row { Makes D.does result place.old.me place.new.me }
    {
        self.board.shared.fetch_add::<OfRow<D>>(place, word, 1)
    }

    // Takes 1 from the word.
    pub(crate) fn subtract(&self, place: &mut Place, deed: Deed) -> u64
        requires at { place.old.table_id ≡ self.now.board.shared.table_id }
        requires word { word_in self.now.stages deed < self.now.board.shared.table_id.words }
        requires may { Takes (about self.now) (row_at place.old.me deed)
            self.now.board.shared.table_id.slots place.old.id place.old.me
            (word_in self.now.stages deed) (λ x. (x + (2 ^ 64 - 1)) % 2 ^ 64) }
        ensures at { (place.new.table_id ≡ place.old.table_id) × (place.new.id ≡ place.old.id) }
        ensures row { Makes (row_at place.old.me deed) result place.old.me place.new.me }
    {
        let word = self.word(deed);
        self.subtract_as::<Brand>(place, word, deed)
    }

    fn subtract_as<D: Stepping>(&self, place: &mut Place, word: usize, _deed: Deed) -> u64
        requires at { place.old.table_id ≡ self.now.board.shared.table_id }
        requires word { word < self.now.board.shared.table_id.words }
        requires may { Takes (about self.now) D.does
            self.now.board.shared.table_id.slots place.old.id place.old.me word
            (λ x. (x + (2 ^ 64 - 1)) % 2 ^ 64) }
        ensures at { (place.new.table_id ≡ place.old.table_id) × (place.new.id ≡ place.old.id) }
        ensures row { Makes D.does result place.old.me place.new.me }
    {
        self.board.shared.fetch_sub::<OfRow<D>>(place, word, 1)
    }

    // Writes `new` where the word is `old`. It answers what the word was.
    pub(crate) fn change(&self, place: &mut Place, deed: Deed, old: u64, new: u64) -> u64
        requires at { place.old.table_id ≡ self.now.board.shared.table_id }
        requires word { word_in self.now.stages deed < self.now.board.shared.table_id.words }
        requires may { Takes (about self.now) (row_at place.old.me deed)
            self.now.board.shared.table_id.slots place.old.id place.old.me
            (word_in self.now.stages deed) (λ x. either (x == old) new x) }
        ensures at { (place.new.table_id ≡ place.old.table_id) × (place.new.id ≡ place.old.id) }
        ensures row { Makes (row_at place.old.me deed) result place.old.me place.new.me }
    {
        let word = self.word(deed);
        self.change_as::<Brand>(place, word, deed, old, new)
    }

    fn change_as<D: Stepping>(
        &self,
        place: &mut Place,
        word: usize,
        _deed: Deed,
        old: u64,
        new: u64,
    ) -> u64
        requires at { place.old.table_id ≡ self.now.board.shared.table_id }
        requires word { word < self.now.board.shared.table_id.words }
        requires may { Takes (about self.now) D.does
            self.now.board.shared.table_id.slots place.old.id place.old.me word
            (λ x. either (x == old) new x) }
        ensures at { (place.new.table_id ≡ place.old.table_id) × (place.new.id ≡ place.old.id) }
        ensures row { Makes D.does result place.old.me place.new.me }
    {
        self.board
            .shared
            .compare_exchange::<OfRow<D>>(place, word, old, new)
    }

    // Writes the word. What it was isn't told.
    pub(crate) fn set(&self, place: &mut Place, deed: Deed, new: u64)
        requires at { place.old.table_id ≡ self.now.board.shared.table_id }
        requires word { word_in self.now.stages deed < self.now.board.shared.table_id.words }
        requires may { Takes (about self.now) (row_at place.old.me deed)
            self.now.board.shared.table_id.slots place.old.id place.old.me
            (word_in self.now.stages deed) (λ _. new) }
        ensures at { (place.new.table_id ≡ place.old.table_id) × (place.new.id ≡ place.old.id) }
        ensures row { (x : ℕ) × Makes (row_at place.old.me deed) x place.old.me place.new.me }
    {
        let word = self.word(deed);
        self.set_as::<Brand>(place, word, deed, new);
    }

    fn set_as<D: Stepping>(&self, place: &mut Place, word: usize, _deed: Deed, new: u64)
        requires at { place.old.table_id ≡ self.now.board.shared.table_id }
        requires word { word < self.now.board.shared.table_id.words }
        requires may { Takes (about self.now) D.does
            self.now.board.shared.table_id.slots place.old.id place.old.me word (λ _. new) }
        ensures at { (place.new.table_id ≡ place.old.table_id) × (place.new.id ≡ place.old.id) }
        ensures row { (x : ℕ) × Makes D.does x place.old.me place.new.me }
    {
        self.board.shared.store::<Sets<D>>(place, word, new);
    }
}
