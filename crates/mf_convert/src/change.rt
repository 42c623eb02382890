//! What came of a change.

use mf_places::Name;
use std::fmt;

/// What came of creating a file, of converting it to its next stage, or of removing it.
#[derive(Clone, Copy, PartialEq, Eq)]
pub enum Change {
    /// The file was created: generation 0 is published.
    Created,
    /// Generation `to` is published in the place of generation `from`.
    Converted {
        from: u32,
        to: u32,
        /// How many parities were put or restored.
        made: u32,
    },
    /// The conversion ended before it published, after as many operations on chunks as it was
    /// allowed.
    Stopped {
        from: u32,
        to: u32,
        /// How many parities were put or restored.
        made: u32,
    },
    /// The file is removed now, by this call.
    RemovedNow,
    /// The file isn't new: it was created before.
    Exists,
    /// The file isn't created.
    Absent,
    /// The file was removed before.
    Removed,
    /// Generation `g` is published, and there is none behind it to convert to.
    Last {
        g: u32,
    },
    /// Another actor has the right to build.
    Busy,
    /// A chunk that the conversion needs was lost by the lose command in this line of the script.
    Needs {
        name: Name,
        line: u32,
    },
    /// A chunk that the conversion needs is on a server that can't be reached.
    Unreachable {
        name: Name,
        server: u32,
    },
    /// Memory ran out.
    Memory,
}

impl fmt::Display for Change {
    ghost use Rattle.std.specs.Prelude.{Some};
    ghost use Rattle.mf_convert.specs.Texts.{change_text};

    ghost output = { λ change. Some (change_text change) };

    fn fmt<W: fmt::Write>(&self, f: &mut fmt::Formatter<W>) -> fmt::Result {
        match *self {
            Change::Created => write!(f, "created"),
            Change::Converted { from, to, made } => {
                write!(f, "converted {from} to {to} made {made}")
            }
            Change::Stopped { from, to, made } => write!(f, "stopped {from} to {to} made {made}"),
            Change::RemovedNow => write!(f, "removed now"),
            Change::Exists => write!(f, "exists"),
            Change::Absent => write!(f, "absent"),
            Change::Removed => write!(f, "removed"),
            Change::Last { g } => write!(f, "last {g}"),
            Change::Busy => write!(f, "busy"),
            Change::Needs { name, line } => write!(f, "needs {name}:{line}"),
            Change::Unreachable { name, server } => write!(f, "unreachable {name} server {server}"),
            Change::Memory => write!(f, "memory"),
        }
    }
}
