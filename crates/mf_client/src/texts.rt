//! The texts of places and outcomes.

use crate::done::{Outcome, Place};
use mf_text::Hex;
use std::fmt;

/// Phase, client and command, with points between them.
impl fmt::Display for Place {
    ghost use Rattle.std.specs.Prelude.{Some};
    ghost use Rattle.mf_client.specs.Texts.{place_text};

    ghost output = { λ place. Some (place_text place) };

    fn fmt<W: fmt::Write>(&self, f: &mut fmt::Formatter<W>) -> fmt::Result {
        let Place {
            phase,
            client,
            command,
        } = *self;
        write!(f, "{phase}.{client}.{command}")
    }
}

impl fmt::Display for Outcome {
    ghost use Rattle.std.specs.Prelude.{Some};
    ghost use Rattle.mf_client.specs.Texts.{outcome_text};

    ghost output = { λ outcome. Some (outcome_text outcome) };

    fn fmt<W: fmt::Write>(&self, f: &mut fmt::Formatter<W>) -> fmt::Result {
        match self {
            Outcome::Change(change) => write!(f, "{change}"),
            Outcome::Bytes {
                g,
                length,
                from,
                digest,
            } => {
                let digest = Hex { bytes: digest };
                write!(f, "bytes {length} gen {g} from {from} sha256 {digest}")
            }
            Outcome::Refused(read) => write!(f, "{read}"),
            Outcome::Held(g) => write!(f, "held {g}"),
            Outcome::AlreadyHeld(g) => write!(f, "already {g}"),
            Outcome::HoldAbsent => write!(f, "absent"),
            Outcome::HoldRemoved => write!(f, "removed"),
            Outcome::Released(g) => write!(f, "released {g}"),
            Outcome::NotHeld => write!(f, "notheld"),
            Outcome::Lost(n) => write!(f, "lost {n}"),
            Outcome::Repair(repair) => write!(f, "{repair}"),
            Outcome::Reclaim(reclaim) => write!(f, "{reclaim}"),
            Outcome::Swept(n) => write!(f, "swept {n}"),
            Outcome::Memory => write!(f, "memory"),
        }
    }
}
