//! The lose lines that a file can meet.
ghost use Rattle.std.specs.Prelude.{◌≡◌, [], ◌∷◌, ◌++◌, OnOk, OnErr};

use crate::Memory;
use std::alloc::Global;
use std::marker::Model;

/// A line of a script that empties a server.
#[derive(Clone, Copy)]
pub struct LoseLine {
    /// The number of the line in the script's text, from 1.
    pub line: u32,
    /// The server that it empties.
    pub server: u32,
}

/// The lose lines up to the end of a phase, in the order of the script.
#[derive(Drop)]
pub struct Losses {
    lines: Vec<LoseLine>,
}

impl Model for Losses {
    ghost use Rattle.std.specs.Prelude.{List};
    ghost use Rattle.mf_places.specs.declared.losses.LoseLine.{LoseLine};

    ghost Value = { List LoseLine };

    ghost view = { λ losses. losses.lines.items };
}

impl Losses {
    /// No lose line.
    pub fn new(alloc: Global) -> Losses
        ensures { result ≡ [] }
    {
        Losses {
            lines: Vec::new(alloc),
        }
    }

    /// Adds a lose line behind the others. The only error is want of memory, and leaves all as it
    /// was.
    pub fn push(&mut self, line: u32, server: u32) -> Result<(), Memory>
        ensures added { OnOk result
            (self.new ≡ self.old ++ record { line = line; server = server } ∷ []) }
        ensures kept { OnErr result (self.new ≡ self.old) }
    {
        self.lines.push(LoseLine { line, server })?;
        Ok(())
    }
}
