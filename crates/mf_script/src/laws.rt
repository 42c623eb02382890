//! Laws of scripts.

ghost use Rattle.mf_script.specs.Laws.{OneAnswer, SeedsAreScripts};
ghost use Rattle.mf_script.specs.Limits.{ScriptsKeepLimits};
ghost use Rattle.mf_script.specs.Sound.{ScriptsAreSound};

/// A text has one answer: a script or a fault, and never two.
pub fn one_answer()
    ensures { OneAnswer }
{}

/// The text of each seed is a script, so none is refused.
pub fn seeds_are_scripts()
    ensures { SeedsAreScripts }
{}

/// Each script of a text is sound: it keeps what every script keeps.
pub fn scripts_are_sound()
    ensures { ScriptsAreSound }
{}

/// Each script of a text keeps its limits: of the chunk size, of files, phases and commands.
pub fn scripts_keep_limits()
    ensures { ScriptsKeepLimits }
{}
