//! What came of a reclaim.

use std::fmt;
use std::marker::Model;

/// Generations that have pins, ascending, each with the number of its pins.
#[derive(Drop)]
pub struct PinCounts {
    items: Vec<(u32, u32)>,
}

impl Model for PinCounts {
    ghost use Rattle.std.specs.Prelude.{List, ℕ};

    ghost Value = { List (ℕ × ℕ) };

    ghost view = { λ counts. counts.items.items };
}

impl PinCounts {
    ghost use Rattle.std.specs.Prelude.{◌≡◌};

    /// The list of these generations.
    pub fn new(items: Vec<(u32, u32)>) -> PinCounts
        ensures { result ≡ items.items }
    {
        PinCounts { items }
    }

    /// The generations, ascending.
    pub fn as_slice(&self) -> &[(u32, u32)]
        ensures { result.now ≡ self.now }
    {
        self.items.as_slice()
    }
}

/// The generations with commas between them, or `-` where there is none.
impl fmt::Display for PinCounts {
    ghost use Rattle.std.specs.Prelude.{Some};
    ghost use Rattle.mf_reclaim.specs.Texts.{pins_text};

    ghost output = { λ pins. Some (pins_text pins) };

    fn fmt<W: fmt::Write>(&self, f: &mut fmt::Formatter<W>) -> fmt::Result {
        let Some(((g, count), more)) = self.as_slice().split_first() else {
            return write!(f, "-");
        };
        write!(f, "{g}:{count}")?;
        for (g, count) in more {
            write!(f, ",{g}:{count}")?;
        }
        Ok(())
    }
}

/// What came of a reclaim.
#[derive(Drop)]
pub enum ReclaimOutcome {
    /// So many generations were closed by this call, and so many names dropped. Those that couldn't
    /// be closed have pins.
    Reclaimed {
        closed: u32,
        dropped: u32,
        pinned: PinCounts,
    },
    /// The file isn't created.
    Absent,
    /// Memory ran out, and nothing was done.
    Memory,
}

impl fmt::Display for ReclaimOutcome {
    ghost use Rattle.std.specs.Prelude.{Some};
    ghost use Rattle.mf_reclaim.specs.Texts.{reclaim_text};

    ghost output = { λ reclaim. Some (reclaim_text reclaim) };

    fn fmt<W: fmt::Write>(&self, f: &mut fmt::Formatter<W>) -> fmt::Result {
        match self {
            ReclaimOutcome::Reclaimed {
                closed,
                dropped,
                pinned,
            } => write!(
                f,
                "reclaimed closed {closed} dropped {dropped} pinned {pinned}"
            ),
            ReclaimOutcome::Absent => write!(f, "absent"),
            ReclaimOutcome::Memory => write!(f, "memory"),
        }
    }
}
