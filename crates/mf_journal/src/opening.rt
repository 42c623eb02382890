//! Reading a journal's bytes.
ghost use Rattle.std.specs.Prelude.{◌≡◌, ◌≢◌, ◌<◌, ◌++◌, IfOk, IfErr, IfSome, IfNone};
ghost use Rattle.std.specs.Prelude.{List, ℕ, ◌⊎◌, OnOk};
ghost use Rattle.mf_journal.specs.Crash.{IsLasting};
ghost use Rattle.mf_journal.specs.declared.opening.OpenFault.TheVariants.{Memory};
ghost use Rattle.mf_journal.specs.declared.opening.OpenFault.TheVariants as fault;
ghost use Rattle.mf_journal.specs.Frames.{framed, IsShort};
ghost use Rattle.mf_journal.specs.Moments.{AnyMoment};
ghost use Rattle.mf_journal.specs.Opening.{HasFault, HasNone, Opens, lists};

use crate::disk::{Disk, Failed};
use std::alloc::{AllocError, AllocFailed, Global};

/// Why a journal wasn't opened.
#[derive(Clone, Copy)]
pub enum OpenFault {
    /// A call of the disk failed.
    Disk,
    /// The first bytes aren't a journal's mark.
    NotJournal,
    /// An open gate stands at this byte, and behind it no record.
    Bad(u64),
    /// Memory ran out.
    Memory,
}

impl From<AllocError> for OpenFault {
    ghost from_gives = { λ _ e. e ≡ Memory };

    fn from(_error: AllocError) -> OpenFault {
        OpenFault::Memory
    }
}

impl<T: Drop> From<AllocFailed<T>> for OpenFault {
    ghost from_gives = { λ _ e. e ≡ Memory };

    fn from(_error: AllocFailed<T>) -> OpenFault {
        OpenFault::Memory
    }
}

impl From<Failed> for OpenFault {
    ghost from_gives = { λ _ e. e ≡ fault.Disk };

    fn from(_failed: Failed) -> OpenFault {
        OpenFault::Disk
    }
}

/// All bytes of a disk, which it makes lasting first.
pub(crate) fn read_all<D: Disk>(alloc: Global, disk: &mut D) -> Result<Vec<u8>, OpenFault>
    ensures bytes { IfOk result (λ bytes. bytes.items ≡ D.reads disk.old) }
    ensures lasting { OnOk result (IsLasting (D.reads disk.new) (D.leaves disk.new)) }
    ensures reads { D.reads disk.new ≡ D.reads disk.old }
    ensures origin { D.origin disk.new ≡ D.origin disk.old }
    ensures cause { IfErr result (λ e.
        ((e ≡ fault.Disk) × ((D.log disk.old).faults < (D.log disk.new).faults))
        ⊎ (e ≡ fault.Memory)) }

    // A crash at any moment of the call leaves what one before it might have left.
    ensures any_moment { AnyMoment (λ d. (D.log d).calls) D.left_since disk.old disk.new
        (D.leaves disk.old) }
{
    disk.sync()?;
    let length = disk.length()?;
    let mut bytes = Vec::from_elem(alloc, 0u8, length as usize)?;
    disk.read_at(0, &mut bytes)?;
    Ok(bytes)
}

/// The payload that begins here, and what is behind it.
fn first(bytes: &[u8]) -> Option<(&[u8], &[u8])>
    ensures some { IfSome result (λ r. (bytes.now ≡ framed r.0.now ++ r.1.now) × IsShort r.0.now) }
    ensures none { IfNone result (HasNone bytes.now) }
{
    if bytes.len() < 4 {
        return None;
    }
    let (size, behind) = bytes.split_at(4);
    let size = u32::from_be_bytes([size[0], size[1], size[2], size[3]]) as usize;
    if behind.len() < size {
        return None;
    }
    Some(behind.split_at(size))
}

/// The records of a journal, and the place of the gate behind them.
pub(crate) fn parse(alloc: Global, bytes: &[u8]) -> Result<(Vec<Vec<u8>>, u64), OpenFault>
    ensures opens { IfOk result (λ r. Opens bytes.now (lists r.0.items) r.1) }
    ensures refuses { IfErr result (λ e. (e ≡ fault.Memory) ⊎ HasFault e bytes.now) }
{
    let [b'M', b'O', b'R', b'P', b'H', b'J', b'L', b'1', front @ ..] = bytes else {
        return Err(OpenFault::NotJournal);
    };
    let mut records = Vec::new(alloc);
    let mut rest = front;
    while let [0xA5, behind @ ..] = rest {
        let at = (bytes.len() - rest.len()) as u64;
        let Some((payload, after)) = first(behind) else {
            return Err(OpenFault::Bad(at));
        };
        records.push(payload.to_vec(alloc)?)?;
        rest = after;
    }
    Ok((records, (bytes.len() - rest.len()) as u64))
}
