//! What came of a read.

use mf_places::Name;
use std::marker::Model;

/// Names that were found lost, in the order found, each with the line of the lose command that lost
/// it.
#[derive(Drop)]
pub struct LostNames {
    items: Vec<(Name, u32)>,
}

impl Model for LostNames {
    ghost use Rattle.std.specs.Prelude.{List, ℕ};
    ghost use Rattle.mf_places.specs.declared.Name.{Name};

    ghost Value = { List (Name × ℕ) };

    ghost view = { λ names. names.items.items };
}

impl LostNames {
    ghost use Rattle.std.specs.Prelude.{◌≡◌};

    /// The list of these names.
    pub fn new(items: Vec<(Name, u32)>) -> LostNames
        ensures { result ≡ items.items }
    {
        LostNames { items }
    }

    /// The names, in order.
    pub fn as_slice(&self) -> &[(Name, u32)]
        ensures { result.now ≡ self.now }
    {
        self.items.as_slice()
    }
}

/// What came of a read.
#[derive(Drop)]
pub enum ReadOutcome {
    /// The file's bytes, from generation `g`. `from` is how many chunks were got.
    Bytes {
        g: u32,
        bytes: Vec<u8>,
        from: u32,
    },
    /// The file isn't created.
    Absent,
    /// The file is removed.
    Removed,
    /// A stripe of generation `g` has lost more chunks than it bears: all that were found lost.
    DataLost {
        g: u32,
        stripe: u32,
        lost: LostNames,
    },
    /// A stripe of generation `g` can't be had while a server can't be reached: the first chunk
    /// that was asked for there.
    Unreachable {
        g: u32,
        stripe: u32,
        name: Name,
        server: u32,
    },
    /// Memory ran out.
    Memory,
}

/// What came of a read that hands the bytes on.
#[derive(Drop)]
pub enum IntoOutcome {
    /// The file's bytes were handed on, from generation `g`: `length` bytes. `from` is how many
    /// chunks were got.
    Bytes {
        g: u32,
        length: u32,
        from: u32,
    },
    /// The file isn't created.
    Absent,
    /// The file is removed.
    Removed,
    /// A stripe of generation `g` has lost more chunks than it bears: all that were found lost. The
    /// bytes of the stripes before it were handed on.
    DataLost {
        g: u32,
        stripe: u32,
        lost: LostNames,
    },
    /// A stripe of generation `g` can't be had while a server can't be reached: the first chunk
    /// that was asked for there. The bytes of the stripes before it were handed on.
    Unreachable {
        g: u32,
        stripe: u32,
        name: Name,
        server: u32,
    },
    /// Memory ran out. A front of the file's bytes was handed on.
    Memory,
}

impl IntoOutcome {
    ghost use Rattle.std.specs.Prelude.{◌≡◌};
    ghost use Rattle.mf_read.specs.Taking.{with_bytes};

    /// The same outcome of a read that gave these bytes.
    pub fn with_bytes(self, bytes: Vec<u8>) -> ReadOutcome
        ensures { result ≡ with_bytes self bytes }
    {
        match self {
            IntoOutcome::Bytes { g, from, .. } => ReadOutcome::Bytes { g, bytes, from },
            IntoOutcome::Absent => ReadOutcome::Absent,
            IntoOutcome::Removed => ReadOutcome::Removed,
            IntoOutcome::DataLost { g, stripe, lost } => ReadOutcome::DataLost { g, stripe, lost },
            IntoOutcome::Unreachable {
                g,
                stripe,
                name,
                server,
            } => ReadOutcome::Unreachable {
                g,
                stripe,
                name,
                server,
            },
            IntoOutcome::Memory => ReadOutcome::Memory,
        }
    }
}
