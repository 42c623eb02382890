//! Whether memory ran out in a command.

ghost use Rattle.std.specs.Prelude.{◌≡◌};
ghost use Rattle.std.specs.List.{list_any};
ghost use Rattle.mf_client.specs.declared.done.Part.{Part};
ghost use Rattle.mf_client.specs.Lacks.{change_lacks, read_lacks, repair_lacks, reclaim_lacks};
ghost use Rattle.mf_client.specs.Lacks.{outcome_lacks, lacks_memory};

use crate::done::{Done, Outcome, Part};
use mf_convert::Change;
use mf_read::ReadOutcome;
use mf_reclaim::ReclaimOutcome;
use mf_repair::RepairOutcome;

// Whether it ran out in a change.
fn change_lacks(change: Change) -> bool
    ensures { result ≡ change_lacks change }
{
    matches!(change, Change::Memory)
}

// Whether it ran out in a read.
fn read_lacks(read: &ReadOutcome) -> bool
    ensures { result ≡ read_lacks read.now }
{
    matches!(read, ReadOutcome::Memory)
}

// Whether it ran out in a repair.
fn repair_lacks(repair: &RepairOutcome) -> bool
    ensures { result ≡ repair_lacks repair.now }
{
    matches!(repair, RepairOutcome::Memory)
}

// Whether it ran out in a reclaim.
fn reclaim_lacks(reclaim: &ReclaimOutcome) -> bool
    ensures { result ≡ reclaim_lacks reclaim.now }
{
    matches!(reclaim, ReclaimOutcome::Memory)
}

// Whether it ran out in a command on one file.
fn outcome_lacks(outcome: &Outcome) -> bool
    ensures { result ≡ outcome_lacks outcome.now }
{
    match outcome {
        Outcome::Change(change) => change_lacks(*change),
        Outcome::Refused(read) => read_lacks(read),
        Outcome::Repair(repair) => repair_lacks(repair),
        Outcome::Reclaim(reclaim) => reclaim_lacks(reclaim),
        Outcome::Memory => true,
        _ => false,
    }
}

// Whether it ran out in one of these parts.
fn parts_lack(parts: &[Part]) -> bool
    ensures { result ≡ list_any (λ (part : Part). change_lacks part.change) parts.now }
{
    parts.iter().any(|part| change_lacks(part.change))
}

impl Done {
    /// Whether memory ran out in the command, or in one of its parts.
    pub fn lacks_memory(&self) -> bool
        ensures { result ≡ lacks_memory self.now }
    {
        outcome_lacks(&self.outcome) || parts_lack(self.parts.as_slice())
    }
}
