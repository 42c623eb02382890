//! Who is told that a client comes to a command.

/// Is told of each client before each of its commands, by their numbers, from 1. It may let the
/// client wait.
pub trait Turnstile: Sync {
    /// The client comes to this command.
    fn reached(&self, client: u32, command: u32);
}

/// Lets every client pass at once.
#[derive(Clone, Copy)]
pub struct Free;

impl Turnstile for Free {
    fn reached(&self, _client: u32, _command: u32) {}
}
