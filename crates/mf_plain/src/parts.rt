//! The parts of a file at rest.
ghost use Rattle.std.specs.Prelude.{◌≡◌};
ghost use Rattle.mf_plain.specs.Parts.{resting_in};

use crate::known::Told;
use crate::plain::Plain;
use mf_vault::{Book, Note, Rest};

/// What a file at rest is made of: its book, the published number, which generations are closed,
/// the names in the order of their numbers, and the ticks at its creation (0 before). Its bytes,
/// and the lose lines that its names may show, are known to contracts alone.
#[derive(Drop)]
pub struct Parts {
    pub book: Book,
    pub published: u32,
    pub closed: Vec<bool>,
    pub names: Vec<Rest>,
    pub born: u64,
    pub told: Note<Told>,
}

impl Plain {
    ghost use Rattle.mf_plain.specs.Resting.{AtRest};

    /// The parts of a file at rest. This takes no memory.
    pub fn apart(self) -> Parts
        ensures same { resting_in result ≡ self }
        ensures rests { AtRest (resting_in result) }
    {
        let Plain {
            book,
            published,
            closed,
            names,
            born,
            told,
        } = self;
        Parts {
            book,
            published,
            closed,
            names,
            born,
            told,
        }
    }

    /// The file at rest of these parts. This takes no memory.
    pub fn together(parts: Parts) -> Plain
        requires { AtRest (resting_in parts) }
        ensures { result ≡ resting_in parts }
    {
        let Parts {
            book,
            published,
            closed,
            names,
            born,
            told,
        } = parts;
        Plain {
            book,
            published,
            closed,
            names,
            born,
            told,
        }
    }
}
