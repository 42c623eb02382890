//! The places for a pin, and the answers of steps that hand out no chunk.

/// A place for a pin.
#[derive(Clone, Copy, Debug, PartialEq, Eq)]
pub enum Slot {
    Hold,
    Work,
}

/// The answer of a close: there was no pin, and the generation is closed for good; there were
/// this many pins; or it was closed before.
#[derive(Clone, Copy, Debug, PartialEq, Eq)]
pub enum Closed {
    Done,
    Pins(u32),
    Already,
}

/// What a see tells of a name: Unborn, Here, or Lost with its line. Away, with the name's server,
/// is the answer of a call that makes no step.
#[derive(Clone, Copy, Debug, PartialEq, Eq)]
pub enum State {
    Unborn,
    Here,
    Lost(u32),
    Away(u32),
}

/// The answer of a step to lose a name: it was Here, and will be Lost; it was neither Here nor
/// Taken, and nothing changes; or it was Taken, and the step is made again.
#[derive(Clone, Copy, Debug, PartialEq, Eq)]
pub enum LoseStep {
    Done,
    Nothing,
    Again,
}
