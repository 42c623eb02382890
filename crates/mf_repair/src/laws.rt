//! What follows of repairs.
ghost use Rattle.mf_repair.specs.Laws.{RepairsGain, RepairsOnce};

/// Where the whole state is told, a repair that had its memory has one outcome, and leaves one
/// actor.
pub fn repair_has_one_result()
    ensures { RepairsOnce }
{}

/// What a repair adds to its actor's Made and Met is what its entries say, its begin, and its pin:
/// it publishes nothing, and is Busy just where its one begin was answered false.
pub fn repairs_gain()
    ensures { RepairsGain }
{}
