//! Laws of phases.

ghost use Rattle.mf_crew.specs.Laws.{ClientsTell, FilesRest};

/// In a phase of several clients no number of a file is published by two outcomes, and no generation
/// is closed by two reclaims. The file's number at rest is at least each number that was published or
/// seen. Who is told Busy met another client who took the right on the file. Pins that refuse a close
/// are the client's own one of its Hold slot, or another client made one. Who created a file doesn't
/// find it absent later.
pub fn clients_tell()
    ensures { ClientsTell }
{}

/// The files behind each phase, of one client or of several, are at rest.
pub fn files_rest()
    ensures { FilesRest }
{}
