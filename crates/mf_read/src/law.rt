//! What follows of reads.
ghost use Rattle.mf_read.specs.Laws.{OneResult, ReadsGain, ShortHasLost};

/// A short asking in which no name was Away has found more names lost than its generation bears: a
/// chunk that isn't had costs one lost name more than there are copies. So a read never says that
/// data is lost at the tolerance.
pub fn short_has_lost()
    ensures { ShortHasLost }
{}

/// Over an actor that is alone a read that had its memory has one outcome, and leaves one state,
/// view and ledger.
pub fn read_has_one_result()
    ensures { OneResult }
{}

/// What a read adds to its actor's Made and Met is what its entries say, and its pin: it publishes
/// nothing and never asks for the right.
pub fn reads_gain()
    ensures { ReadsGain }
{}
