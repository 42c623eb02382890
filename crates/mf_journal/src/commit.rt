//! The calls that begin a journal and that add a record.
ghost use Rattle.std.specs.Prelude.{◌≡◌, ◌++◌, ◌∷◌, ◌+◌, ◌<◌, ◌^◌, [], List, ℕ, length, is_ok};
ghost use Rattle.std.specs.Prelude.{IfOk, OnOk, OnErr};
ghost use Rattle.mf_journal.specs.Calls.{Ran};
ghost use Rattle.mf_journal.specs.Calls as call;
ghost use Rattle.mf_journal.specs.Frames.{IsSettled, IsBeforeOrAfter, IsShort, framed, mark};
ghost use Rattle.mf_journal.specs.Moments.{AnyMoment};

use crate::disk::{Disk, Failed};
use std::alloc::{AllocError, Global};

/// Adds a record behind the gate at this place: writes `body`, which is its frame and the next
/// gate, and then opens the gate.
pub(crate) fn commit<D: Disk>(disk: &mut D, gate: u64, body: &[u8]) -> Result<(), Failed>
    requires room { gate + 1 < 2 ^ 64 }

    ensures ran { Ran (call.write (gate + 1) body.now ∷ call.sync
        ∷ call.write gate (165 ∷ []) ∷ call.sync ∷ [])
        (D.log disk.old) (D.log disk.new) (is_ok result) }
    ensures origin { D.origin disk.new ≡ D.origin disk.old }
    ensures cause { OnErr result ((D.log disk.old).faults < (D.log disk.new).faults) }

    // What was acknowledged stays, and so does the new record once this call has returned Ok.
    ensures acknowledged { OnOk result ((ps : List (List ℕ)) (p : List ℕ) → IsShort p
        → body.now ≡ framed p ++ 0 ∷ []
        → IsSettled (D.reads disk.old) (D.leaves disk.old) gate ps
        → IsSettled (D.reads disk.new) (D.leaves disk.new) (gate + length body.now)
        (ps ++ p ∷ [])) }

    // A crash at any moment of the call leaves the records from before it, with the new one or
    // without.
    ensures any_moment { (ps : List (List ℕ)) (p : List ℕ) → IsShort p
        → body.now ≡ framed p ++ 0 ∷ []
        → IsSettled (D.reads disk.old) (D.leaves disk.old) gate ps
        → AnyMoment (λ d. (D.log d).calls) D.left_since disk.old disk.new (IsBeforeOrAfter ps p) }
{
    disk.write_at(gate + 1, body)?;
    disk.sync()?;
    disk.write_at(gate, &[0xA5])?;
    disk.sync()?;
    Ok(())
}

/// Begins a journal without records: the mark and a shut gate.
pub(crate) fn begin<D: Disk>(disk: &mut D) -> Result<(), Failed>
    ensures ran { Ran (call.write 0 (mark ++ 0 ∷ []) ∷ call.sync ∷ [])
        (D.log disk.old) (D.log disk.new) (is_ok result) }
    ensures origin { D.origin disk.new ≡ D.origin disk.old }
    ensures cause { OnErr result ((D.log disk.old).faults < (D.log disk.new).faults) }
    ensures rest { OnOk result (IsSettled (D.reads disk.new) (D.leaves disk.new) 8 []) }
{
    disk.write_at(0, b"MORPHJL1\0")?;
    disk.sync()?;
    Ok(())
}

/// A record as it stands behind its gate, and the next gate.
pub(crate) fn frame(alloc: Global, payload: &[u8]) -> Result<Vec<u8>, AllocError>
    requires { IsShort payload.now }
    ensures { IfOk result (λ body. body.items ≡ framed payload.now ++ 0 ∷ []) }
{
    let mut body = Vec::new(alloc);
    body.extend_from_slice(&(payload.len() as u32).to_be_bytes())?;
    body.extend_from_slice(payload)?;
    body.push(0)?;
    Ok(body)
}
