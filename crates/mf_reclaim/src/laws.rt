//! What follows of reclaiming.
ghost use Rattle.mf_reclaim.specs.Laws.{HeldStays, ReclaimsGain, ReclaimsOnce};

/// Where the whole state is told, a reclaim that had its memory has one outcome, and leaves one
/// actor.
pub fn reclaim_has_one_result()
    ensures { ReclaimsOnce }
{}

/// A reclaim discards no name of the generation that its own client holds: a close is answered Done
/// or Already only where its actor has no pin.
pub fn held_stays()
    ensures { HeldStays }
{}

/// What a reclaim adds to its actor's Made and Met is what its entries say, and its pin: it
/// publishes nothing and never asks for the right. Its Work slot is free at each close.
pub fn reclaims_gain()
    ensures { ReclaimsGain }
{}
