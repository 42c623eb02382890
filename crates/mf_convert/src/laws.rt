//! What follows of creating, converting and removing a file.
ghost use Rattle.mf_convert.specs.Laws.{ChangesGain, ConvertsOnce, CreatesOnce, ReadsNoData};
ghost use Rattle.mf_convert.specs.Laws.{RemovesOnce};

/// Where the whole state is told, a create that had its memory has one outcome, and leaves one
/// actor.
pub fn create_has_one_result()
    ensures { CreatesOnce }
{}

/// Where the whole state is told, a remove has one outcome, and leaves one actor.
pub fn remove_has_one_result()
    ensures { RemovesOnce }
{}

/// Where the whole state is told, a convert that had its memory has one outcome, and leaves one
/// actor.
pub fn convert_has_one_result()
    ensures { ConvertsOnce }
{}

/// A convert makes no get of data or of a copy, whatever the answer.
pub fn no_data_is_read()
    ensures { ReadsNoData }
{}

/// What a create, a convert or a remove adds to its actor's Made and Met is what its entries say,
/// its begin, its pin, and the one publishing of a Created, Converted or RemovedNow. It is Busy just
/// where its one begin was answered false.
pub fn changes_gain()
    ensures { ChangesGain }
{}
