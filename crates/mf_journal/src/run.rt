//! Adding several records.
ghost use Rattle.std.specs.Prelude.{◌≡◌, IfErr, OnOk, length, take, true};
ghost use Rattle.mf_journal.specs.Calls.{Ran};
ghost use Rattle.mf_journal.specs.Kept.{Keeps, adds_all, disk_of, gate_of};
ghost use Rattle.mf_journal.specs.Opening.{lists};
ghost use Rattle.mf_journal.specs.Run.{HasAcknowledged, KeepsMore, Stopped};

use crate::disk::Disk;
use crate::journal::{Journal, JournalFault};
use std::alloc::Global;

/// Adds records in order, up to the first that isn't added. The number at `Err` is that of the
/// records that were acknowledged.
pub fn append_all<D: Disk>(
    journal: &mut Journal<D>,
    alloc: Global,
    payloads: &[Vec<u8>],
) -> Result<(), (usize, JournalFault)>
    ensures ran { OnOk result (Ran (adds_all (gate_of journal.old) (lists payloads.now))
        (D.log (disk_of journal.old)) (D.log (disk_of journal.new)) true) }
    ensures stopped { IfErr result (λ e. Stopped (gate_of journal.old) (lists payloads.now)
        (D.log (disk_of journal.old)) (D.log (disk_of journal.new)) e.0 e.1) }
    ensures origin { D.origin (disk_of journal.new) ≡ D.origin (disk_of journal.old) }
    ensures keeps { OnOk result (KeepsMore D.reads D.leaves journal.old journal.new
        (lists payloads.now)) }

    // A crash at any moment leaves the records from before and the first of these, among them each
    // one that was acknowledged by then.
    ensures any_moment { OnOk result (HasAcknowledged D.reads D.leaves (λ d. (D.log d).calls)
        D.left_since journal.old journal.new (lists payloads.now) (length payloads.now)) }
    ensures any_moment_err { IfErr result (λ e. HasAcknowledged D.reads D.leaves
        (λ d. (D.log d).calls) D.left_since journal.old journal.new (lists payloads.now) e.0) }
{
    for i in 0..payloads.len() {
        match journal.append(alloc, &payloads[i]) {
            Ok(()) => {}
            Err(fault) => return Err((i, fault)),
        }
    }
    Ok(())
}
