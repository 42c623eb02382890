//! The texts of faults.

use crate::{FamilyFault, Places};
use mf_matrix::KernelList;
use std::fmt;

/// The places, ascending, each behind a space.
impl fmt::Display for Places {
    ghost use Rattle.std.specs.Prelude.{Some};
    ghost use Rattle.mf_check.specs.Texts.{numbers_text};

    ghost output = { λ places. Some (numbers_text places) };

    fn fmt<W: fmt::Write>(&self, f: &mut fmt::Formatter<W>) -> fmt::Result {
        for place in self.as_slice() {
            write!(f, " {place}")?;
        }
        Ok(())
    }
}

// The entries of a kernel list, each behind a space.
#[derive(Clone, Copy)]
struct Entries<'a> {
    kernel: &'a KernelList,
}

impl fmt::Display for Entries<'_> {
    ghost use Rattle.std.specs.Prelude.{Some};
    ghost use Rattle.mf_check.specs.Texts.{numbers_text};

    ghost output = { λ entries. Some (numbers_text entries.kernel.now) };

    fn fmt<W: fmt::Write>(&self, f: &mut fmt::Formatter<W>) -> fmt::Result {
        for entry in self.kernel.as_slice() {
            write!(f, " {entry}")?;
        }
        Ok(())
    }
}

/// A word, and the numbers that the fault names. Want of memory has no text.
impl fmt::Display for FamilyFault {
    ghost use Rattle.std.specs.Prelude.{Some};
    ghost use Rattle.mf_check.specs.Texts.{family_text};

    ghost output = { λ fault. Some (family_text fault) };

    fn fmt<W: fmt::Write>(&self, f: &mut fmt::Formatter<W>) -> fmt::Result {
        match self {
            FamilyFault::PointCount(n) => write!(f, "pointcount {n}"),
            FamilyFault::PointZero(i) => write!(f, "pointzero {i}"),
            FamilyFault::PointTwice(i, j) => write!(f, "pointtwice {i} {j}"),
            FamilyFault::Undecodable {
                stage,
                places,
                kernel,
            } => {
                let kernel = Entries { kernel };
                write!(f, "undecodable {stage} places{places} kernel{kernel}")
            }
            FamilyFault::Memory => Ok(()),
        }
    }
}
