//! What was done for a command.

use mf_convert::Change;
use mf_read::ReadOutcome;
use mf_reclaim::ReclaimOutcome;
use mf_repair::RepairOutcome;
use mf_script::Act;
use mf_vault::Io;
use std::marker::Model;

/// The numbers of a command, each from 1.
#[derive(Clone, Copy)]
pub struct Place {
    pub phase: u32,
    /// The number of the client in its phase.
    pub client: u32,
    /// The number of the command among those of its client.
    pub command: u32,
}

/// What came of a command.
#[derive(Drop)]
pub enum Outcome {
    /// Of a command that changes its file.
    Change(Change),
    /// The file's bytes were read.
    Bytes {
        /// The generation that they were read from.
        g: u32,
        /// How many they are.
        length: u32,
        /// How many chunks they were read from.
        from: u32,
        /// Their SHA-256.
        digest: [u8; 32],
    },
    /// The file's bytes weren't read.
    Refused(ReadOutcome),
    /// This generation is held from now on.
    Held(u32),
    /// This generation was held before.
    AlreadyHeld(u32),
    /// No generation can be held, since the file isn't created.
    HoldAbsent,
    /// No generation can be held, since the file is removed.
    HoldRemoved,
    /// This generation is no longer held.
    Released(u32),
    /// No generation was held.
    NotHeld,
    /// So many chunks were lost.
    Lost(u32),
    /// Of a repair.
    Repair(RepairOutcome),
    /// Of a reclaim.
    Reclaim(ReclaimOutcome),
    /// So many conversions published a generation.
    Swept(u32),
    /// Memory ran out.
    Memory,
}

/// What a command on several files did to one of them.
#[derive(Clone, Copy)]
pub struct Part {
    /// The number of the file.
    pub file: u32,
    pub change: Change,
}

/// The parts of a command, in the order in which they were done.
#[derive(Drop)]
pub struct Parts {
    items: Vec<Part>,
}

impl Model for Parts {
    ghost use Rattle.std.specs.Prelude.{List};
    ghost use Rattle.mf_client.specs.declared.done.Part.{Part};

    ghost Value = { List Part };

    ghost view = { λ parts. parts.items.items };
}

impl Parts {
    ghost use Rattle.std.specs.Prelude.{◌≡◌};

    /// The list of these parts.
    pub fn new(items: Vec<Part>) -> Parts
        ensures { result ≡ items.items }
    {
        Parts { items }
    }

    /// The parts, in order.
    pub fn as_slice(&self) -> &[Part]
        ensures { result.now ≡ self.now }
    {
        self.items.as_slice()
    }
}

/// A command that was done.
#[derive(Drop)]
pub struct Done {
    pub place: Place,
    pub act: Act,
    pub outcome: Outcome,
    /// What a command on several files did to each.
    pub parts: Parts,
    /// The operations on chunks that the command took, in all files.
    pub io: Io,
}
