//! What came of a repair.

use mf_places::Name;
use mf_read::LostNames;
use std::fmt;

/// What came of a repair.
#[derive(Drop)]
pub enum RepairOutcome {
    /// Every stripe was mended.
    Repaired {
        /// How many names were restored.
        restored: u32,
        /// How many names couldn't be reached when they were probed.
        skipped: u32,
    },
    /// The file isn't created.
    Absent,
    /// The file is removed.
    Removed,
    /// Another actor has the right to build.
    Busy,
    /// A stripe of generation `g` has lost more chunks than it bears: all that were found lost.
    DataLost {
        g: u32,
        stripe: u32,
        lost: LostNames,
    },
    /// A stripe of generation `g` can't be had while a server can't be reached: the first of its
    /// names that was found so.
    Unreachable {
        g: u32,
        stripe: u32,
        name: Name,
        server: u32,
    },
    /// Memory ran out.
    Memory,
}

impl fmt::Display for RepairOutcome {
    ghost use Rattle.std.specs.Prelude.{Some};
    ghost use Rattle.mf_repair.specs.Texts.{repair_text};

    ghost output = { λ repair. Some (repair_text repair) };

    fn fmt<W: fmt::Write>(&self, f: &mut fmt::Formatter<W>) -> fmt::Result {
        match self {
            RepairOutcome::Repaired { restored, skipped } => {
                write!(f, "repaired {restored} skipped {skipped}")
            }
            RepairOutcome::Absent => write!(f, "absent"),
            RepairOutcome::Removed => write!(f, "removed"),
            RepairOutcome::Busy => write!(f, "busy"),
            RepairOutcome::DataLost { g, stripe, lost } => {
                write!(f, "datalost gen {g} stripe {stripe} lost{lost}")
            }
            RepairOutcome::Unreachable {
                g,
                stripe,
                name,
                server,
            } => write!(
                f,
                "unreachable gen {g} stripe {stripe} {name} server {server}"
            ),
            RepairOutcome::Memory => write!(f, "memory"),
        }
    }
}
