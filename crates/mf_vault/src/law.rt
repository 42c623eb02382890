//! What follows of the calls of any access.
ghost use Rattle.mf_vault.specs.Laws.{EntriesTell, LooksNeverFall, NeverRefused, OneAnswer};
ghost use Rattle.mf_vault.specs.Laws.{PinsAreLooked, SeenGrows, WorkStaysFree};

/// What an actor has seen and made only grows.
pub fn seen_only_grows()
    ensures { SeenGrows }
{}

/// Where the whole state is told, a call has one answer, want of memory aside.
pub fn alone_has_one_answer()
    ensures { OneAnswer }
{}

/// What calls add to their actor's Made and Met is just what their entries say, and beside these the
/// numbers looked at and published, the begins, the pins, and a Here for each get that ended for
/// want of memory.
pub fn entries_tell()
    ensures { EntriesTell }
{}

/// A generation is pinned only where its number was looked at.
pub fn pins_are_looked_at()
    ensures { PinsAreLooked }
{}

/// The published numbers that an actor looks at or publishes never fall, those of the pins that it
/// missed included.
pub fn looks_never_fall()
    ensures { LooksNeverFall }
{}

/// Calls that don't pin the Work slot leave it free at each close.
pub fn work_stays_free()
    ensures { WorkStaysFree }
{}

/// Where the whole state is told, a begin is never refused.
pub fn alone_is_never_refused()
    ensures { NeverRefused }
{}
