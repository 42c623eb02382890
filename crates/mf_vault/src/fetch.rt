//! The two calls of an access that may wait for another actor.
ghost use Rattle.std.specs.Prelude.{◌≡◌, ◌+◌, ◌<◌, ◌≤◌};
ghost use Rattle.mf_vault.specs.Actor as call;
ghost use Rattle.mf_vault.specs.Answers.{Goes};
ghost use Rattle.mf_vault.specs.May.{MayGet, MayLose};

use crate::access::Access;
use crate::answers::Got;
use mf_places::Name;

/// An access that can also fetch chunks. Its two calls may wait, on a shared file, for another
/// actor's get.
pub trait Fetch: Access {
    /// The chunk of a name of a pinned generation. Want of memory leaves no entry.
    fn get(&mut self, name: Name) -> Got
        requires may { MayGet name (Self.actor self.old) }
        requires room { 0 < Self.spare self.old }
        ensures goes { Goes (call.get name result) (Self.actor self.old) (Self.actor self.new) }
        ensures spare { Self.spare self.old ≤ Self.spare self.new + 1 };

    /// Loses the chunk of a name, with the line of a lose command of its server. It answers true
    /// exactly where it changed the name.
    fn lose(&mut self, name: Name, line: u32) -> bool
        requires may { MayLose name line (Self.actor self.old) }
        requires room { 0 < Self.spare self.old }
        ensures goes { Goes (call.lose name line result)
            (Self.actor self.old) (Self.actor self.new) }
        ensures spare { Self.spare self.old ≤ Self.spare self.new + 1 };
}
