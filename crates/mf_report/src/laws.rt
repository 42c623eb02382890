//! What a dump says of a file's bytes.

ghost use Rattle.mf_report.specs.Laws.{HereIsDigest};

/// The line of a chunk that is here has the digest of the bytes that the plain encoding of the
/// file's bytes gives it.
pub fn a_chunk_that_is_here_is_told_by_its_cell()
    ensures { HereIsDigest }
{}
