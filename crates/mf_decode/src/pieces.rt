//! Where the chunks of a stripe are asked for.
ghost use Rattle.std.specs.Prelude.{◌≡◌, ◌<◌, List, Option, None, length, IfOk, IfSome};
ghost use Rattle.mf_decode.specs.Stripes.{Stripe, IsDataList, IsPiece, IsParity};
ghost use Rattle.mf_decode.specs.Answers.{answers_after, failure_of};
ghost use Rattle.mf_decode.specs.declared.pieces.Asked.{Asked};
ghost use Rattle.mf_decode.specs.declared.pieces.Place.{Place};
ghost use Rattle.mf_decode.specs.declared.pieces.Place.TheVariants as place;

use mf_kernel::{Chunk, Memory};

/// A place of a stripe: a piece of its data or one of its parities, by number from 0.
#[derive(Clone, Copy, Drop)]
pub enum Place {
    Piece(u32),
    Parity(u32),
}

/// An answer: the place that was asked for, and whether there was a chunk.
#[derive(Clone, Copy, Drop)]
pub struct Asked {
    pub place: Place,
    pub had: bool,
}

/// Where the pieces and the parities of one stripe are asked for.
pub trait Pieces {
    /// What it answers from: the length of its chunks, the points of its parities, the number of
    /// its pieces, and the data list with which its answers agree, where there is one.
    ghost stripe: { Self → Stripe };
    /// The kind of what it was made with.
    ghost Made: { Type 0 } = { Unit {0} };
    /// What it was made with, which is the implementation's own.
    ghost made: { Self → Self.Made };
    /// Its answers so far, in order.
    ghost answers: { Self → List Asked };
    /// The place of its error, where there was one.
    ghost failure: { Self → Option Place };

    /// Piece `t` of the data, or `None` where there is none to be had. The only error is want of
    /// memory.
    fn piece(&mut self, t: u32) -> Result<Option<Chunk>, Memory>
        requires exists { t < (Self.stripe self.old).count }
        requires unbroken { Self.failure self.old ≡ None }
        ensures chunk { IfOk result (λ o. IfSome o (IsPiece (Self.stripe self.old) t)) }
        ensures answers { Self.answers self.new ≡ answers_after (place.Piece t) result
            (Self.answers self.old) }
        ensures failure { Self.failure self.new ≡ failure_of (place.Piece t) result }
        ensures stays { (Self.stripe self.new ≡ Self.stripe self.old)
            × (Self.made self.new ≡ Self.made self.old) };

    /// Parity `p`, or `None` where there is none to be had. The only error is want of memory.
    fn parity(&mut self, p: u32) -> Result<Option<Chunk>, Memory>
        requires exists { p < length (Self.stripe self.old).points }
        requires unbroken { Self.failure self.old ≡ None }
        ensures chunk { IfOk result (λ o. IfSome o (IsParity (Self.stripe self.old) p)) }
        ensures answers { Self.answers self.new ≡ answers_after (place.Parity p) result
            (Self.answers self.old) }
        ensures failure { Self.failure self.new ≡ failure_of (place.Parity p) result }
        ensures stays { (Self.stripe self.new ≡ Self.stripe self.old)
            × (Self.made self.new ≡ Self.made self.old) };

    /// The data list, where there is one, has as many chunks as the stripe has pieces, each of the
    /// stripe's length.
    ghost shape: { (s : Self) → IfSome (Self.stripe s).pieces
        (IsDataList (Self.stripe s).count (Self.stripe s).size) };
}
