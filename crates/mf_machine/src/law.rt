//! The laws. A reached state is what any list of moves of any number of actors, splits and joins
//! included, makes of any file at rest.
ghost use Rattle.mf_machine.specs.Clauses.{AccountedNeeds};
ghost use Rattle.mf_machine.specs.Exhibits.{CausedNeeds, EachNeeds, SomeRun};
ghost use Rattle.mf_machine.specs.Laws.{AddsUp, AnswersEntered, AnswersFit, AnswersTell};
ghost use Rattle.mf_machine.specs.Laws.{CausesLeadBack, LastBringsBack, Law, NotesTrue, OnlyGrows};
ghost use Rattle.mf_machine.specs.Laws.{PinnedStays, RestGoesOn, RestIsKept, RuleHolds, SeenHandedOn};

/// The ten rules hold in every reached state.
pub fn rules_are_kept()
    ensures { Law }
{}

/// A file at rest keeps the rules with its first actor. A state that keeps them, with no name Taken
/// and with nothing in the slots of names that aren't Here, is at rest.
pub fn rest_is_kept()
    ensures { RestIsKept }
{}

/// In every reached state no name of a pinned generation is Unborn or Dropped: it is Here with its
/// cell, Taken, or Lost.
pub fn pinned_stays()
    ensures { PinnedStays }
{}

/// In every state that keeps the rule as sums, whether or not a list of moves reaches it: the ten
/// rules hold, and no name of a pinned generation is Unborn or Dropped. A table of the file's words
/// keeps this rule.
pub fn rule_holds_everywhere()
    ensures { RuleHolds }
{}

/// Where a reached state has one actor left, without pin, right or Taken name, its Made accounts
/// for the state, its Mets have their causes, and the state is at rest.
pub fn last_brings_back()
    ensures { LastBringsBack }
{}

/// In every reached state a false begin and pins above one's own lead back to the deed of another
/// actor, or of one that was taken in. Already, a pin answered false, a Lost line and Removed lead
/// back to the opening or to some actor's deed, and Absent to the opening.
pub fn causes_lead_back()
    ensures { CausesLeadBack }
{}

/// The account of any list of actors adds up: a step adds what it adds to its own actor, a split an
/// empty Met, a join nothing.
pub fn account_adds_up()
    ensures { AddsUp }
{}

/// No guard is too strong: in some run each step is made and each answer given.
pub fn no_guard_is_too_strong()
    ensures { SomeRun }
{}

/// No clause of the rules is idle: some state meets the other clauses of its rule, and not the
/// rule.
pub fn no_rule_is_empty()
    ensures rules { EachNeeds }
    ensures accounted { AccountedNeeds }
    ensures caused { CausedNeeds }
{}

/// In every reached state: what an actor has seen and made only grows. It has it still after a
/// move, or the move is a join that took it in, and the staying actor has it.
pub fn only_grows()
    ensures { OnlyGrows }
{}

/// In any table each of the fourteen kinds of step, and the second try of a drop, counts once with
/// its own actor, and notes there its word and the value that it met (a give leaves these two). No
/// other move notes anything, and none does with another actor.
pub fn notes_are_true()
    ensures { NotesTrue }
{}

/// In every reached state an actor's Seen has all that it was answered, and its Made is what its
/// answers say, with those of the actors that it took in.
pub fn answers_tell()
    ensures { AnswersTell }
{}

/// A move enters its answer: the actor's own Met has one more of it and no other change, and no
/// other actor's Mets change, but that a join keeps those of the actor that it takes in.
pub fn answers_are_entered()
    ensures { AnswersEntered }
{}

/// A split hands on what was seen and nothing else, and the first actor has seen all that the
/// resting file holds.
pub fn seen_is_handed_on()
    ensures { SeenHandedOn }
{}

/// In every reached state the word that a step on a name meets is one that its answer tells of: no
/// see meets Dropped, a take meets Here, Taken or Lost, a birth Unborn, a retake Lost, and a return
/// Taken.
pub fn answers_fit()
    ensures { AnswersFit }
{}

/// A file at rest still rests when lose lines are added.
pub fn rest_goes_on()
    ensures { RestGoesOn }
{}
