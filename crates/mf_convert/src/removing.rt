//! Removing a file.
ghost use Rattle.mf_vault.specs.Conditions.{IsIdle, Leaves};
ghost use Rattle.mf_convert.specs.Remove.{Removes};

use crate::change::Change;
use mf_vault::{Access, Pinned, Slot};

/// Removes the file, whose name isn't used again. It is Absent where the file isn't created,
/// Removed where it was removed before, and Busy where another actor has the right to build. It
/// takes no memory.
pub fn remove<A: Access>(access: &mut A) -> Change
    requires idle { IsIdle (A.actor access.old) }
    ensures licence { Removes result (A.actor access.old) (A.actor access.new) }
    ensures leaves { Leaves (A.actor access.old) (A.actor access.new) }
{
    if !access.begin() {
        return Change::Busy;
    }
    let stages = access.book().stages();
    match access.pin(Slot::Work) {
        Pinned::At(_) => {
            access.unpin(Slot::Work);
            access.publish(stages + 1);
            access.end();
            Change::RemovedNow
        }
        Pinned::Absent => {
            access.end();
            Change::Absent
        }
        Pinned::Removed => {
            access.end();
            Change::Removed
        }
    }
}
