//! Laws: the calls of `Access` wait for nobody, and what a get tells was met by a step of its own.
ghost use Rattle.std.specs.Prelude.{ℕ, ◌<◌, List};
ghost use Rattle.mf_vault.specs.Actor as call;
ghost use Rattle.mf_vault.specs.Answers.{Goes};
ghost use Rattle.mf_vault.specs.May.{MayGet, MayPin};
ghost use Rattle.mf_shared.specs.Noted.{CallMeets, note_of};
ghost use Rattle.mf_shared.specs.Whole.{room_in, told_by};

use crate::access::SharedAccess;
use mf_vault::{Access, Fetch, Got, Name, Pinned, Slot};
use std::sync::Wait;

/// A shared file is an `Access` for each `R`, and so also where `R` is no handle by which a
/// function may wait. A pin, the one of its calls that tries more than once, then returns whatever
/// other actors do.
pub fn a_pin_waits_for_nobody<R>(access: &mut SharedAccess<R>, slot: Slot) -> Pinned
    requires { MayPin slot (told_by access.old) }
    ensures { (missed : List ℕ)
        × Goes (call.pin slot missed result) (told_by access.old) (told_by access.new) }
{
    access.pin(slot)
}

/// A get that isn't Away made a step on the word of its name in this very call, and tells what that
/// step met. So it isn't made of a look at the word and of a chunk that was kept from before.
pub fn a_get_meets_its_word<R: Wait>(access: &mut SharedAccess<R>, name: Name) -> Got
    requires may { MayGet name (told_by access.old) }
    requires room { 0 < room_in access.old }
    ensures { CallMeets (call.get name result) (told_by access.old)
        (note_of access.old) (note_of access.new) }
{
    access.get(name)
}
