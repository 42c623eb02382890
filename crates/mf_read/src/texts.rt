//! The texts of reads.

use crate::outcome::{LostNames, ReadOutcome};
use mf_text::Hex;
use sha2::{Digest, Sha256};
use std::fmt;

/// The names, each with its line and behind a space.
impl fmt::Display for LostNames {
    ghost use Rattle.std.specs.Prelude.{Some};
    ghost use Rattle.mf_read.specs.Texts.{lost_names_text};

    ghost output = { λ names. Some (lost_names_text names) };

    fn fmt<W: fmt::Write>(&self, f: &mut fmt::Formatter<W>) -> fmt::Result {
        for (name, line) in self.as_slice() {
            write!(f, " {name}:{line}")?;
        }
        Ok(())
    }
}

impl fmt::Display for ReadOutcome {
    ghost use Rattle.std.specs.Prelude.{Some};
    ghost use Rattle.mf_read.specs.Texts.{read_text};

    ghost output = { λ read. Some (read_text read) };

    fn fmt<W: fmt::Write>(&self, f: &mut fmt::Formatter<W>) -> fmt::Result {
        match self {
            ReadOutcome::Bytes { g, bytes, from } => {
                let length = bytes.len();
                let digest = Sha256::digest(bytes);
                let digest = Hex { bytes: &digest };
                write!(f, "bytes {length} gen {g} from {from} sha256 {digest}")
            }
            ReadOutcome::Absent => write!(f, "absent"),
            ReadOutcome::Removed => write!(f, "removed"),
            ReadOutcome::DataLost { g, stripe, lost } => {
                write!(f, "datalost gen {g} stripe {stripe} lost{lost}")
            }
            ReadOutcome::Unreachable {
                g,
                stripe,
                name,
                server,
            } => write!(
                f,
                "unreachable gen {g} stripe {stripe} {name} server {server}"
            ),
            ReadOutcome::Memory => write!(f, "memory"),
        }
    }
}
