//! From a file at rest to a file among many actors, and back.
ghost use Rattle.std.specs.Prelude.{◌≡◌, ◌≤◌, ◌++◌, ◌==◌, List, IfOk, IfErr, if◌then◌else◌};
ghost use Rattle.mf_machine.specs.Words.{whole_share};
ghost use Rattle.mf_machine.specs.Steps.{old_half, new_half, joined};
ghost use Rattle.mf_places.specs.declared.losses.LoseLine.{LoseLine};
ghost use Rattle.mf_shared.specs.Left.{LeftBy};
ghost use Rattle.mf_shared.specs.Seats.{Begins, IsOf, view_of};
ghost use Rattle.mf_shared.specs.Shared.{facts_in};

use crate::seat::Seat;
use crate::shared::Shared;
use mf_gate::Gate;
use mf_plain::{Parts, Plain};
use mf_vault::{Losses, Note, birth};
use std::alloc::Global;

impl Shared {
    /// The file at rest among many actors, in a phase with these ticks and these lose lines, of
    /// which the file's come first; and the first seat, which has the whole share and has seen all
    /// that the file holds. An error is want of memory, and hands the file back. This takes all the
    /// memory that `into_plain` needs.
    pub fn of_plain(
        alloc: Global,
        plain: Plain,
        now: u64,
        losses: &Losses,
    ) -> Result<(Shared, Seat), Plain>
        requires since { plain.born ≤ now }
        requires lines { (more : List LoseLine) × (losses.now ≡ plain.losses ++ more) }
        ensures made { IfOk result (λ t. Begins plain now losses.now t.0 t.1) }
        ensures back { IfErr result (λ back. back ≡ plain) }
    {
        let Parts {
            book,
            published,
            closed,
            names,
            born,
            told,
        } = plain.apart();
        let bytes = Note::pick(&told);
        match Gate::new(
            alloc,
            &book,
            &bytes,
            losses,
            published,
            closed.as_slice(),
            names,
        ) {
            Ok((gate, pass)) => {
                let born = birth(published, now, born);
                let shared = Shared {
                    book,
                    gate,
                    born,
                    ticks: now,
                };
                Ok((shared, Seat { pass }))
            }
            Err(names) => Err(Plain::together(Parts {
                book,
                published,
                closed,
                names,
                born,
                told,
            })),
        }
    }

    /// A further seat, with half the share and all that this one has seen. It has made and met
    /// nothing.
    pub fn split(&self, seat: &mut Seat) -> Seat
        requires of { IsOf seat.old self.now }
        requires share { 2 ≤ (view_of seat.old).share }
        ensures of { IsOf seat.new self.now × IsOf result self.now }
        ensures old { view_of seat.new ≡ old_half (view_of seat.old) }
        ensures new { view_of result ≡ new_half (view_of seat.old) }
    {
        let pass = self.gate.split(&mut seat.pass);
        Seat { pass }
    }

    /// Takes in another seat, with its share and all that it has seen, made and met.
    pub fn join(&self, into: &mut Seat, gone: Seat)
        requires of { IsOf into.old self.now × IsOf gone self.now }
        ensures of { IsOf into.new self.now }
        ensures both { view_of into.new ≡ joined (view_of into.old) (view_of gone) }
    {
        let Seat { pass } = gone;
        self.gate.join(&mut into.pass, pass);
    }

    /// The file at rest that is left: the state that the last seat's Made accounts for. The seat is
    /// the last one where it has the whole share again. This takes no memory.
    pub fn into_plain(self, seat: Seat) -> Plain
        requires of { IsOf seat self }
        requires last { (view_of seat).share ≡ whole_share }
        ensures { LeftBy (facts_in self) (view_of seat) result }
    {
        let told = Note::pick(&self.gate);
        let Shared {
            book,
            gate,
            born,
            ticks: _,
        } = self;
        let Seat { pass } = seat;
        let (published, closed, names) = gate.rest(pass);
        let born = birth(published, 0, born);
        Plain::together(Parts {
            book,
            published,
            closed,
            names,
            born,
            told,
        })
    }
}
