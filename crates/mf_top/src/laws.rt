//! Laws of the top call.

ghost use Rattle.mf_top.specs.Laws.{OneAnswer, Completes, ReadsAreServed};
ghost use Rattle.mf_top.specs.Laws.{DigestsAreOfCells, ConversionsReadNoData};
ghost use Rattle.mf_top.specs.Statuses.{StatusesTell};

/// Words that ask for no seed, and a text, have one status and one answer, where no command lacks
/// memory and no phase has several clients.
pub fn one_answer()
    ensures { OneAnswer }
{}

/// Where no read and no write failed, a run of a script ends with 0 or 5, and a check with 0, 1 or
/// 5. Where no write failed, a run of a seed's script ends with 0 or 5.
pub fn ends_well()
    ensures { Completes }
{}

/// The statuses 1 to 4, both ways. A text that is no script ends with 1 or 5, and only such a text
/// with 1; other words with 2 or 5, and only such words with 2; a read that failed with 3, and only
/// such a call; a write that failed with 4, and only such a call.
pub fn statuses_tell()
    ensures { StatusesTell }
{}

/// A command that reads and names no server answers the bytes, or that the file isn't there, or
/// want of memory, or more names of one stripe lost than the generation bears.
pub fn reads_are_served()
    ensures { ReadsAreServed }
{}

/// In each report of a run, a line of a chunk that is here has the digest of the bytes that the
/// plain encoding of the bytes of the script's file gives it.
pub fn digests_are_of_cells()
    ensures { DigestsAreOfCells }
{}

/// In each report of a run the conversions, taken together, read no data and no copy, and so their
/// line begins with two zeros.
pub fn conversions_read_no_data()
    ensures { ConversionsReadNoData }
{}
