//! The file machine: the state of one file, the steps of its actors, the rules that hold of it, and
//! the law that every step keeps them. Nothing of it runs: these are the definitions that the table
//! of atomic words and the accesses are proved against.
//!
//! A file has a *published number* (0: not created; g + 1: generation g is published; q + 1 with q
//! stages: removed), the *right* to build, the *pins* of each generation, and each name's *state*:
//! Unborn, Here, Taken, Lost with a line, or Dropped. An actor has its *Seen* (what it was shown),
//! *Made* (what it changed) and *Met* (what it was answered).
//!
//! *Proved.* For every list of steps of any number of actors from a file at rest on: the ten rules
//! hold; names of a pinned generation stay; the last actor's account gives the state, which is at
//! rest; each answer is entered, fits the word that it met, and refused ones lead back to the
//! opening or to some actor's deed; what was seen is handed on; no guard is too strong and no
//! clause of the rules is idle.
#![tactic(auto)]

mod answer;
mod law;
mod view;

pub use answer::{Closed, LoseStep, Slot, State};
pub use law::{
    account_adds_up, answers_are_entered, answers_fit, answers_tell, causes_lead_back,
    last_brings_back, no_guard_is_too_strong, no_rule_is_empty, notes_are_true, only_grows,
    pinned_stays, rest_goes_on, rest_is_kept, rule_holds_everywhere, rules_are_kept,
    seen_is_handed_on,
};
pub use view::{Build, Changes, Inside, Loss, Made, Met, Refusal, Seen, Step, View};
