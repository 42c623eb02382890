//! The steps of the chunk pass: on the word of a name and its slot.
ghost use Rattle.std.specs.Prelude.{◌≡◌, ℕ};
ghost use Rattle.mf_machine.specs.Steps.{MaySee, MayBirth, MayTake, MayGive, MayLose, MayRetake};
ghost use Rattle.mf_machine.specs.Steps.{MayDrop, see_row, see_answer, take_row, give_row};
ghost use Rattle.mf_machine.specs.Steps.{birth_row, born_row, retake_row, restored_row};
ghost use Rattle.mf_machine.specs.Steps.{lose_answer, drop_answer};
ghost use Rattle.mf_machine.specs.Words.{unborn, IsLost};
ghost use Rattle.mf_gate.specs.Passes.{IsAt, Steps, Turns, Loses, Drops, IsTaken, file, view};

use crate::answers::Taken;
use crate::deed::Deed;
use crate::gate::{Gate, Pass};
use crate::making::{DROPPED, HERE, LOST, TAKEN, UNBORN};
use mf_machine::{LoseStep, State};
use mf_vault::Chunk;

impl Gate {
    /// The state of a name. Taken is answered as Here.
    pub fn see(&self, pass: &mut Pass, name: u32) -> State
        requires at { IsAt pass.old self.now }
        requires may { MaySee (file pass.old) name (view pass.old) }
        ensures at { IsAt pass.new self.now }
        ensures row { (x : ℕ) × Steps (see_row (file pass.old) name) x pass.old pass.new
            × (result ≡ see_answer x) }
    {
        let met = self.load(&mut pass.place, Deed::See(name));
        if met == UNBORN {
            State::Unborn
        } else if met >= LOST {
            State::Lost((met - LOST) as u32)
        } else {
            State::Here
        }
    }

    /// Brings the cell of an Unborn name.
    pub fn birth(&self, pass: &mut Pass, name: u32, bytes: Chunk)
        requires at { IsAt pass.old self.now }
        requires may { MayBirth (file pass.old) name (view pass.old) }
        requires cell { bytes ≡ (file pass.old).cell name }
        ensures at { IsAt pass.new self.now }
        ensures row { Turns (birth_row (file pass.old) name) (born_row (file pass.old) name)
            unborn pass.old pass.new }
    {
        self.set(&mut pass.place, Deed::Birth(name), TAKEN);
        let _empty = self
            .board
            .shared
            .exchange(&mut pass.place, name as usize, Some(bytes));
        self.set(&mut pass.place, Deed::Born(name), HERE);
    }

    /// Takes the chunk of a name that is Here. Again is answered where another actor has it Taken.
    pub fn take(&self, pass: &mut Pass, name: u32) -> Taken
        requires at { IsAt pass.old self.now }
        requires may { MayTake (file pass.old) name (view pass.old) }
        ensures at { IsAt pass.new self.now }
        ensures row { (x : ℕ) × Steps (take_row (file pass.old) name) x pass.old pass.new
            × IsTaken (file pass.old) name x result }
    {
        let met = self.change(&mut pass.place, Deed::Take(name), HERE, TAKEN);
        if met == HERE {
            let slot = self
                .board
                .shared
                .exchange(&mut pass.place, name as usize, None);
            let Some(chunk) = slot else { unreachable!() };
            Taken::Here(chunk)
        } else if met >= LOST {
            Taken::Lost((met - LOST) as u32)
        } else {
            Taken::Again
        }
    }

    /// Gives the chunk of a name back that this pass has Taken.
    pub fn give(&self, pass: &mut Pass, name: u32, bytes: Chunk)
        requires at { IsAt pass.old self.now }
        requires may { MayGive name (view pass.old) }
        requires cell { bytes ≡ (file pass.old).cell name }
        ensures at { IsAt pass.new self.now }
        ensures row { (x : ℕ) × Steps (give_row (file pass.old) name) x pass.old pass.new }
    {
        let _empty = self
            .board
            .shared
            .exchange(&mut pass.place, name as usize, Some(bytes));
        self.set(&mut pass.place, Deed::Give(name), HERE);
    }

    /// Loses the chunk of a name that is Here, with the line of a lose command of its server. Again
    /// is answered where another actor has it Taken.
    pub fn lose(&self, pass: &mut Pass, name: u32, line: u32) -> LoseStep
        requires at { IsAt pass.old self.now }
        requires may { MayLose (file pass.old) name line (view pass.old) }
        ensures at { IsAt pass.new self.now }
        ensures row { (x : ℕ) × Loses (file pass.old) name line result x pass.old pass.new
            × (result ≡ lose_answer x) }
    {
        let met = self.change(&mut pass.place, Deed::Lose(name, line), HERE, TAKEN);
        if met == HERE {
            let _chunk = self
                .board
                .shared
                .exchange(&mut pass.place, name as usize, None);
            self.set(&mut pass.place, Deed::Lost(name, line), LOST + line as u64);
            LoseStep::Done
        } else if met == TAKEN {
            LoseStep::Again
        } else {
            LoseStep::Nothing
        }
    }

    /// Brings the cell of a Lost name again.
    pub fn retake(&self, pass: &mut Pass, name: u32, bytes: Chunk)
        requires at { IsAt pass.old self.now }
        requires may { MayRetake (file pass.old) name (view pass.old) }
        requires cell { bytes ≡ (file pass.old).cell name }
        ensures at { IsAt pass.new self.now }
        ensures row { (x : ℕ) × Turns (retake_row (file pass.old) name)
            (restored_row (file pass.old) name) x pass.old pass.new × IsLost x }
    {
        self.set(&mut pass.place, Deed::Retake(name), TAKEN);
        let _empty = self
            .board
            .shared
            .exchange(&mut pass.place, name as usize, Some(bytes));
        self.set(&mut pass.place, Deed::Restored(name), HERE);
    }

    /// Drops a name that only closed generations hold. It answers true exactly where it changed the
    /// name.
    pub fn drop_name(&self, pass: &mut Pass, name: u32) -> bool
        requires at { IsAt pass.old self.now }
        requires may { MayDrop (file pass.old) name (view pass.old) }
        ensures at { IsAt pass.new self.now }
        ensures row { (x : ℕ) × Drops (file pass.old) name (drop_answer x) x result
            pass.old pass.new }
    {
        let met = self.change(&mut pass.place, Deed::Drop(name), HERE, TAKEN);
        if met == HERE {
            let _chunk = self
                .board
                .shared
                .exchange(&mut pass.place, name as usize, None);
            self.set(&mut pass.place, Deed::Dropped(name), DROPPED);
            true
        } else if met >= LOST {
            self.change(&mut pass.place, Deed::DropAgain(name), met, DROPPED) == met
        } else {
            false
        }
    }
}
