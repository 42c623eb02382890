//! What is known of one actor of a file. No value of a view is made: a clause reads a number of it
//! without a limit, and an array as a list of any length. A generation, a name or a slot that may
//! be absent is 0, or 1 more than its number.

/// A loss of a name, with the line of its lose command.
pub struct Loss {
    pub name: u64,
    pub line: u64,
}

/// A close that was refused: the pins that it met, and the pins that its own actor then had on that
/// generation.
pub struct Refusal {
    pub generation: u64,
    pub pins: u64,
    pub own: u64,
}

/// What an actor did and was answered since its last `begin`.
pub struct Build {
    /// 1 where the actor has the right.
    pub right: u64,
    /// 1 where it has looked at the published number since.
    pub looked: u64,
    /// The names answered Unborn, and not put since.
    pub unborn: [u64; 0],
    /// The names answered Lost, and not restored since the last such answer.
    pub lost: [u64; 0],
    /// The names put, restored, or answered Here or Lost.
    pub settled: [u64; 0],
}

/// What an actor has seen. It only grows.
pub struct Seen {
    /// The greatest published number.
    pub number: u64,
    /// The generations answered Closed: by a close, or by a pin answered false.
    pub shut: [u64; 0],
    /// The names put, restored or answered not Unborn.
    pub born: [u64; 0],
    /// The names that the actor has dropped.
    pub dropped: [u64; 0],
}

/// The changes of names: each name as often as it was put, lost, restored and dropped.
pub struct Changes {
    pub put: [u64; 0],
    pub lost: [Loss; 0],
    pub restored: [u64; 0],
    pub dropped: [u64; 0],
}

/// What an actor's own steps changed, and those of the actors that it took in.
pub struct Made {
    /// The numbers published.
    pub numbers: [u64; 0],
    /// The generations closed.
    pub closings: [u64; 0],
    pub changes: Changes,
}

/// What one actor's steps were answered, one entry for each answer.
pub struct Met {
    /// The published numbers looked at, and those that it published.
    pub numbers: [u64; 0],
    /// The begins answered true, and those answered false, which are the refusals.
    pub begun: u64,
    pub refused: u64,
    /// The pins answered true and false, by generation.
    pub opened: [u64; 0],
    pub missed: [u64; 0],
    /// The closes answered Done, Already, and Pins.
    pub closed: [u64; 0],
    pub already: [u64; 0],
    pub pinned: [Refusal; 0],
    /// The names that a get or a probe was answered Unborn, Here and Lost.
    pub unborn: [u64; 0],
    pub here: [u64; 0],
    pub lost: [Loss; 0],
    /// The names put and restored, and those lost and dropped by a call answered Done.
    pub put: [u64; 0],
    pub restored: [u64; 0],
    pub made_lost: [Loss; 0],
    pub dropped: [u64; 0],
    /// The names whose lose, and whose discard, was answered Nothing.
    pub not_lost: [u64; 0],
    pub not_dropped: [u64; 0],
}

/// What an actor is inside of: the name that it has Taken in a get, a birth, a retake, a lose or a
/// drop, or whose drop is between its two tries.
pub struct Inside {
    pub getting: u64,
    pub bearing: u64,
    pub retaking: u64,
    pub losing: u64,
    pub dropping: u64,
    pub trying: u64,
    /// The line of the last lose, and the word that the first try of the last drop met.
    pub line: u64,
    pub tried: u64,
}

/// The steps so far; and of the last one that wasn't a give, its word and the value that it met
/// there.
pub struct Step {
    pub count: u64,
    pub word: u64,
    pub met: u64,
}

/// One actor.
pub struct View {
    /// Its part of 2^30. It is 0 once another actor took it in, and bounds its pins on closed
    /// generations.
    pub share: u64,
    /// The generation of each pin that fell on a closed one. It stays counted in the word.
    pub strays: [u64; 0],
    /// The generations pinned in the two slots.
    pub hold: u64,
    pub work: u64,
    /// The number last looked at, and 1 more; 0 before the first look.
    pub last: u64,
    pub build: Build,
    pub seen: Seen,
    pub made: Made,
    /// Its own Met, and that of each actor that it took in.
    pub own: Met,
    pub gone: [Met; 0],
    pub inside: Inside,
    pub step: Step,
}
