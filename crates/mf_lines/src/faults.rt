//! The texts of a script's faults.

use crate::parts::{Kind, LimitName};
use std::fmt;

impl fmt::Display for LimitName {
    ghost use Rattle.std.specs.Prelude.{Some};
    ghost use Rattle.mf_lines.specs.FaultTexts.{limit_text};

    ghost output = { λ name. Some (limit_text name) };

    fn fmt<W: fmt::Write>(&self, f: &mut fmt::Formatter<W>) -> fmt::Result {
        match *self {
            LimitName::Text => write!(f, "text"),
            LimitName::Number => write!(f, "number"),
            LimitName::Tick => write!(f, "tick"),
            LimitName::Point => write!(f, "point"),
            LimitName::Points => write!(f, "points"),
            LimitName::Chunk => write!(f, "chunk"),
            LimitName::Name => write!(f, "name"),
            LimitName::Files => write!(f, "files"),
            LimitName::Pattern => write!(f, "pattern"),
            LimitName::Length => write!(f, "length"),
            LimitName::Chunks => write!(f, "chunks"),
            LimitName::Phases => write!(f, "phases"),
            LimitName::Clients => write!(f, "clients"),
            LimitName::Commands => write!(f, "commands"),
        }
    }
}

/// A word, and what the fault names. Want of memory has no text.
impl fmt::Display for Kind {
    ghost use Rattle.std.specs.Prelude.{Some};
    ghost use Rattle.mf_lines.specs.FaultTexts.{kind_text};

    ghost output = { λ kind. Some (kind_text kind) };

    fn fmt<W: fmt::Write>(&self, f: &mut fmt::Formatter<W>) -> fmt::Result {
        match self {
            Kind::Text => write!(f, "text"),
            Kind::Header => write!(f, "header"),
            Kind::Unknown => write!(f, "unknown"),
            Kind::Arity => write!(f, "arity"),
            Kind::Number => write!(f, "number"),
            Kind::Limit(name) => write!(f, "limit {name}"),
            Kind::Twice => write!(f, "twice"),
            Kind::NoFile => write!(f, "nofile"),
            Kind::NoServer => write!(f, "noserver"),
            Kind::Order => write!(f, "order"),
            Kind::Shape(fault) => write!(f, "shape {fault}"),
            Kind::Family(fault) => write!(f, "family {fault}"),
            Kind::Memory => Ok(()),
        }
    }
}
