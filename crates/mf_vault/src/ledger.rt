//! Entries into a ledger that has room for them, as each access makes them.
ghost use Rattle.std.specs.Prelude.{◌≡◌, ◌<◌, ◌≤◌, [], ◌∷◌, ◌++◌, length, vec_capacity};
ghost use Rattle.mf_vault.specs.Actor.{change_answer, get_entry, noted, state_answer};

use crate::answers::{Answer, Entry, Got, Op};
use mf_machine::State;
use mf_places::Name;

impl Answer {
    /// The answer of a probe that found this state.
    pub fn told(state: State) -> Answer
        ensures { result ≡ state_answer state }
    {
        match state {
            State::Unborn => Answer::Unborn,
            State::Here => Answer::Here,
            State::Lost(line) => Answer::Lost(line),
            State::Away(server) => Answer::Away(server),
        }
    }

    /// The answer of an operation that changed the name, or didn't.
    pub fn changed(yes: bool) -> Answer
        ensures { result ≡ change_answer yes }
    {
        if yes { Answer::Done } else { Answer::Nothing }
    }
}

/// Appends an entry. This takes no memory.
pub fn append(ledger: &mut Vec<Entry>, entry: Entry)
    requires { length ledger.old.items < vec_capacity ledger.old }
    ensures items { ledger.new.items ≡ ledger.old.items ++ entry ∷ [] }
    ensures capacity { vec_capacity ledger.old ≤ vec_capacity ledger.new }
{
    if ledger.push(entry).is_err() {
        unreachable!()
    }
}

/// Enters an operation on a chunk. This takes no memory.
pub fn enter(ledger: &mut Vec<Entry>, op: Op, name: Name, answer: Answer)
    requires { length ledger.old.items < vec_capacity ledger.old }
    ensures items { ledger.new.items ≡ ledger.old.items ++ noted op name answer }
    ensures capacity { vec_capacity ledger.old ≤ vec_capacity ledger.new }
{
    append(ledger, Entry::Chunk { op, name, answer });
}

/// Enters a get, unless it wanted memory. This takes no memory.
pub fn enter_get(ledger: &mut Vec<Entry>, name: Name, got: &Got)
    requires { length ledger.old.items < vec_capacity ledger.old }
    ensures items { ledger.new.items ≡ ledger.old.items ++ get_entry name got.now }
    ensures capacity { vec_capacity ledger.old ≤ vec_capacity ledger.new }
{
    let answer = match got {
        Got::Here(_) => Answer::Here,
        Got::Lost(line) => Answer::Lost(*line),
        Got::Away(server) => Answer::Away(*server),
        Got::Memory => return,
    };
    enter(ledger, Op::Get, name, answer);
}
