//! A journal in a file, across a crash.
ghost use Rattle.std.specs.Prelude.{◌≡◌, ℕ, IfErr, IfOk, OnOk, length};
ghost use Rattle.mf_journal.specs.Kept.{disk_of};
ghost use Rattle.mf_journal.specs.Opening.{lists};
ghost use Rattle.mf_file.specs.Law.{Acknowledges, Finds, FindsAgain, IsHonest, IsHonestFile};
ghost use Rattle.mf_file.specs.Law.{KeepsFirst};

use crate::file::FileDisk;
use crate::opening::{FileFault, open};
use crate::raw::{Host, RawFile};
use mf_journal::{Journal, JournalFault, OpenFault, append_all};
use std::alloc::Global;

/// Why a journal in a file wasn't opened.
#[derive(Drop)]
pub enum KeptFault {
    File(FileFault),
    Journal(OpenFault),
}

/// Adds records to a journal in a file, up to the first that isn't added. The number at `Err` is
/// that of the records that were acknowledged.
pub fn append_to_file<F: RawFile>(
    journal: &mut Journal<FileDisk<F>>,
    alloc: Global,
    payloads: &[Vec<u8>],
) -> Result<(), (usize, JournalFault)>
    ensures all { OnOk result
        (Acknowledges journal.old journal.new (lists payloads.now) (length payloads.now)) }
    ensures some { IfErr result (λ e.
        Acknowledges journal.old journal.new (lists payloads.now) e.0) }
{
    append_all(journal, alloc, payloads)
}

/// Opens a journal in a file that a crash may have left: its records, in order.
pub fn open_journal(
    rt: &HostRuntime,
    path: &str,
) -> Result<(Journal<FileDisk<Host>>, Vec<Vec<u8>>), KeptFault>
    ensures finds { IfOk result (λ r. Finds (disk_of r.0) (lists r.1.items)) }
    ensures keeps { IfOk result (λ r. KeepsFirst r.0) }
{
    let disk = match open(rt, path) {
        Ok(disk) => disk,
        Err(fault) => return Err(KeptFault::File(fault)),
    };
    match Journal::open(rt.alloc(), disk) {
        Ok(opened) => Ok(opened),
        Err((_disk, fault)) => Err(KeptFault::Journal(fault)),
    }
}

/// A law: what the next run finds in the file of a journal. Its one premise on the world is
/// `IsHonest`, that a file has again what its calls allow.
pub fn finds_again<F: RawFile>(
    before: &Journal<FileDisk<F>>,
    behind: &Journal<FileDisk<F>>,
    next: &FileDisk<F>,
)
    ensures { FindsAgain before.now behind.now next.now }
{
    let _ = before;
    let _ = behind;
    let _ = next;
}

/// A law: by the calls that the file itself was asked for, and a crash behind the last of them.
pub fn is_honest<F: RawFile>(disk: &FileDisk<F>, next: &FileDisk<F>)
    ensures { (t : ℕ) → IsHonestFile disk.now next.now → IsHonest disk.now t next.now }
{
    let _ = next;
    disk.tells();
}
