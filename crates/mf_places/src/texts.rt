//! The texts of names.

use crate::Name;
use std::fmt;

impl fmt::Display for Name {
    ghost use Rattle.std.specs.Prelude.{Some};
    ghost use Rattle.mf_places.specs.Texts.{name_text};

    ghost output = { λ name. Some (name_text name) };

    fn fmt<W: fmt::Write>(&self, f: &mut fmt::Formatter<W>) -> fmt::Result {
        match *self {
            Name::Data(i) => write!(f, "D{i}"),
            Name::Copy(c, i) => write!(f, "C{c}.{i}"),
            Name::Parity(width, j, p) => write!(f, "P{width}.{j}.{p}"),
        }
    }
}
